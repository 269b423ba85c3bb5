// Rows written one behind another into lent ones.
ghost use Rattle.std.specs.Prelude.{◌≡◌, ◌≤◌, [], length};

// There is no lent row left.
#[derive(Clone, Copy, Debug, PartialEq, Eq)]
pub struct Full;

// The lent rows, and how many of them are written.
#[derive(Drop)]
pub struct Tail<'a, T> {
    rows: &'a mut [T],
    count: usize,
    ghost within: { count ≤ length rows.now },
}

impl<'a, T: Copy> Tail<'a, T> {
    ghost use Rattle.build.specs.Tails.{written, SameRows, Pushed};

    pub fn new(rows: &'a mut [T]) -> Tail<'a, T>
        ensures same_rows { result.rows.ghost_name ≡ rows.entry.ghost_name }
        ensures lent { result.rows.now ≡ rows.old }
        ensures empty { written result ≡ [] }
    {
        Tail { rows, count: 0 }
    }

    // Writes a row behind the others.
    pub fn push(&mut self, row: T) -> Result<(), Full>
        ensures pushes { Pushed self.old self.new row result }
        ensures same_rows { SameRows self.old self.new }
    {
        if self.count >= self.rows.len() {
            return Err(Full);
        }
        self.rows[self.count] = row;
        self.count += 1;
        Ok(())
    }

    // The rows written so far.
    pub fn written(&self) -> &[T]
        ensures reads { result.now ≡ written self.now }
    {
        &self.rows[..self.count]
    }
}
