// The walk over a word's members.
ghost use Rattle.std.specs.Iterator.{YieldsFirst, item_count};
ghost use Rattle.board.specs.Tick.{members};

// The members of a word that are still to come, lowest first.
#[derive(Drop)]
pub(crate) struct Members(pub(crate) u16);

impl Iterator for Members {
    type Item = usize;

    ghost next_gives = { YieldsFirst (λ s. members s.0) };

    ghost remaining = { item_count (λ s. members s.0) };

    fn next(&mut self) -> Option<usize> {
        let word = self.0;
        // 01 names this form: the ones count says how many remain, and trailing zeros give the next.
        let left = word.count_ones();
        if left == 0 {
            return None;
        }
        let i = word.trailing_zeros() as usize;
        self.0 = word - (1u16 << i);
        Some(i)
    }
}
