// Lines of an input that comes in pieces of any size.
ghost use Rattle.std.specs.Prelude.{◌≡◌, [], ◌++◌, take, eqb};
ghost use Rattle.std.specs.List.{position};
ghost use Rattle.script.specs.Lines.{number_after, kept_by, kept_most, ReadsOn};

// Bytes of a line at most, its LF among them.
pub const LINE: usize = 64;

// Bytes of a line that are kept: one more than a line has at most, which tells that it is too long.
pub const KEPT: usize = LINE + 1;

// A line that is being read: its number, and the first of its bytes, in fixed memory since there is no heap for a `Vec`. No `ArrayVec`,
// which is not Copy, as a session is; and no `ArrayString`, since an input may have any bytes.
#[derive(Clone, Copy)]
pub struct Reader {
    pub line: u64,
    pub length: usize,
    pub bytes: [u8; KEPT],
}

// The place of a text's first LF.
fn find_end(text: &[u8]) -> Option<usize>
    ensures { result ≡ position (λ b. eqb b 10) text.now }
{
    text.iter().position(|byte| *byte == b'\n')
}

impl Reader {
    // Before the first line.
    pub fn new() -> Reader
        ensures { (kept_by result ≡ []) × (result.line ≡ 1) }
    {
        Reader {
            line: 1,
            length: 0,
            bytes: [0u8; KEPT],
        }
    }

    // The bytes that are kept.
    pub fn kept(&self) -> &[u8]
        ensures { result.now ≡ kept_by self.now }
    {
        &self.bytes[..self.length.min(KEPT)]
    }

    // Before the next line; its number has 64 bits.
    pub fn next_line(&mut self)
        ensures { (kept_by self.new ≡ []) × (self.new.line ≡ number_after self.old.line) }
    {
        self.line = self.line.wrapping_add(1);
        self.length = 0;
    }

    // Bytes more of the line, of which as many are kept as there is room for.
    #[tactic(auto, using(crate::proofs::lines::Pieces::kept_put))]
    fn keep(&mut self, more: &[u8])
        ensures kept { kept_by self.new ≡ take kept_most (kept_by self.old ++ more.now) }
        ensures same { self.new.line ≡ self.old.line }
    {
        let from = self.kept().len();
        let end = KEPT.min(from + more.len());
        self.bytes[from..end].copy_from_slice(&more[..end - from]);
        self.length = end;
    }

    // Reads on from `at` to the end of the line, and gives the place behind it; none is given where the piece ends first.
    pub fn read_on(&mut self, piece: &[u8], at: usize) -> Option<usize>
        ensures { ReadsOn self.old piece.now at result self.new }
    {
        let rest = piece.get(at..)?;
        let Some(end) = find_end(rest) else {
            self.keep(rest);
            return None;
        };
        self.keep(&rest[..=end]);
        Some(at + end + 1)
    }
}
