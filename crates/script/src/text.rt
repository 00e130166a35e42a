// Numbers in base ten, a line of output, and lines behind one another in a buffer.
ghost use Rattle.std.specs.Prelude.{◌≡◌, [], ◌++◌, ◌+◌, ◌≤◌, length};
ghost use Rattle.board.specs.Log.{position_of};
ghost use Rattle.script.specs.Text.{digits_most, line_room, decimal, signed, text_of, Adds, Wrote};

use itoa::Buffer;
use track::Coordinate;

// Four bytes from here on stand for a position below zero.
const BELOW: u32 = 1 << 31;

// A line of output: any bytes, as a caller may have them. Each that this crate hands out is ASCII and shorter than the room (laws in
// proofs/output/Ascii and proofs/run/Ascii). `ArrayString` is UTF-8, `ArrayVec` is not `Copy`, and no clause says that `write!` succeeds.
#[derive(Clone, Copy)]
pub struct Out {
    pub length: usize,
    pub bytes: [u8; Out::ROOM],
}

impl Out {
    // Bytes of a line at most.
    pub const ROOM: usize = 160;

    pub fn new() -> Out
        ensures { (text_of result ≡ []) × (result.length ≡ 0) }
    {
        Out {
            length: 0,
            bytes: [0; Out::ROOM],
        }
    }

    // A text behind what is there.
    pub(crate) fn push(&mut self, text: &str)
        requires { self.old.length + length text.now ≤ line_room }
        ensures { Adds self.old text.now (length text.now) self.new }
    {
        let end = self.length + text.len();
        self.bytes[self.length..end].copy_from_slice(text.as_bytes());
        self.length = end;
    }

    // A number and the text behind it.
    #[tactic(auto, using(crate::proofs::text::Written::decimal_is, std::proofs::Common::append_assoc))]
    pub(crate) fn number(&mut self, n: u64, behind: &str)
        requires { self.old.length + digits_most + length behind.now ≤ line_room }
        ensures { Adds self.old (decimal n ++ behind.now) (digits_most + length behind.now) self.new }
    {
        self.push(Buffer::new().format(n));
        self.push(behind);
    }

    // The position of a coordinate, which wraps in four bytes, and the text behind it.
    pub(crate) fn position(&mut self, c: Coordinate, behind: &str)
        requires { self.old.length + digits_most + length behind.now ≤ line_room }
        ensures { Adds self.old (signed (position_of c) ++ behind.now) (digits_most + length behind.now) self.new }
    {
        let ahead = c.0.wrapping_sub(Coordinate::BIAS as u32);
        let (sign, size) = if ahead < BELOW {
            ("", ahead)
        } else {
            ("-", ahead.wrapping_neg())
        };
        self.push(sign);
        self.push(Buffer::new().format(size));
        self.push(behind);
    }

    // What the line holds; one that a caller made longer than its room is cut there.
    #[tactic(auto, using(crate::proofs::text::Written::within_room))]
    fn text(&self) -> &[u8]
        ensures { (result.now ≡ text_of self.now) × (length result.now ≤ line_room) }
    {
        &self.bytes[..self.length.min(Out::ROOM)]
    }

    // The line goes into a buffer behind what is there; the place behind it.
    pub fn write(&self, out: &mut [u8], used: usize) -> usize
        requires { used + line_room ≤ length out.old }
        ensures { Wrote (text_of self.now) used out.old result out.new }
    {
        let text = self.text();
        let end = used + text.len();
        out[used..end].copy_from_slice(text);
        end
    }
}
