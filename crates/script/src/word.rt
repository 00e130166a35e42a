// The word that a script line begins with.
ghost use Rattle.std.specs.Prelude.{◌≡◌, ◌≤◌, IfSome};
ghost use Rattle.script.specs.Word.{form_of};

// The words of lines and how many numbers follow each, in the order of their codes in a call's row, which begin at 1.
const FORMS: [(&[u8], usize); 16] = [
    (b"track", 3),
    (b"start", 2),
    (b"end", 2),
    (b"loops", 2),
    (b"repeat", 2),
    (b"dir", 2),
    (b"point", 6),
    (b"drop", 2),
    (b"action", 4),
    (b"jump", 2),
    (b"play", 1),
    (b"pause", 1),
    (b"resume", 1),
    (b"stop", 1),
    (b"advance", 1),
    (b"clear", 0),
];

// The code of a form of a line, and how many numbers it has.
#[derive(Clone, Copy)]
pub(crate) struct CodedForm {
    pub(crate) code: usize,
    pub(crate) count: usize,
}

// The form that a word begins.
pub(crate) fn form_of(word: &[u8]) -> Option<CodedForm>
    ensures form { result ≡ form_of word.now }
    ensures few { IfSome result (λ f. (f.code ≤ 16) × (f.count ≤ 6)) }
{
    for (place, (name, count)) in FORMS.iter().enumerate() {
        if word == *name {
            return Some(CodedForm {
                code: place + 1,
                count: *count,
            });
        }
    }
    None
}
