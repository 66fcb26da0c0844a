//! Cells at regular distances.
ghost use Rattle.std.specs.Prelude.{◌≡◌, ◌<◌, ◌↔◌, IsTrue};
ghost use Rattle.cell_strip.specs.Regions.{IsIn, IsLastRow, empty, has};

/// The cells `base + a * stride + b` for each `a` below `count` and each `b` below `run`: so many rows of so many
/// cells each. Rows may overlap, and a region may be empty; a cell that several rows have is still one cell.
#[derive(Clone, Copy)]
pub struct Region {
    /// The address of the first row.
    pub base: u64,
    /// How many rows there are.
    pub count: u32,
    /// How far a row begins behind the one before.
    pub stride: u32,
    /// How many cells a row has.
    pub run: u32,
}

impl Region {
    /// The region that has no cell.
    pub fn none() -> Region
        ensures { result ≡ empty }
    {
        Region {
            base: 0,
            count: 0,
            stride: 0,
            run: 0,
        }
    }

    /// Whether the cell at this address is one of its cells. It takes the same time for each region.
    pub fn has(&self, at: u64) -> bool
        ensures { (result ≡ has self.now at) × (IsTrue result ↔ IsIn self.now at) }
    {
        if at < self.base || self.count == 0 {
            return false;
        }
        let distance = at - self.base;
        let row = self.last_row(distance);
        distance - row * u64::from(self.stride) < u64::from(self.run)
    }

    // The last row that begins no further behind the first one.
    fn last_row(&self, distance: u64) -> u64
        requires { 0 < self.now.count }
        ensures { IsLastRow self.now distance result }
    {
        let last = u64::from(self.count) - 1;
        if self.stride == 0 {
            return last;
        }
        last.min(distance / u64::from(self.stride))
    }
}
