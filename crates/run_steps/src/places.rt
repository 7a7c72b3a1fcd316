//! The bytes and locations that accesses are of.
ghost use Rattle.std.specs.Prelude.{◌≡◌, ◌↔◌, IsTrue, ◌≤◌, ◌+◌, ◌^◌, IfNone, IfSome, get_or};
ghost use Rattle.run_steps.specs.Widths.{above_bytes, cells_of, low_part};

/// What an access is of: some bytes, the lowest first, or a location, which holds a whole value. It has at most 8 cells, below 2^64.
#[derive(Clone, Copy, Debug, PartialEq, Eq)]
pub struct Place {
    /// The first byte, or the location.
    pub address: u64,
    /// How many bytes, 1 to 8; 0 for a location.
    pub width: u64,
    ghost few: { cells_of width ≤ 8 },
    ghost within: { address + cells_of width ≤ 2 ^ 64 },
}

impl Place {
    ghost use Rattle.run_steps.specs.Places.{cell_count, covers, is_place, lies_in, overlaps, cell_parts};

    /// So many bytes from an address on, or the location there, where the width is 0. None where that are more than 8 bytes, or where they
    /// don't lie below 2^64.
    pub fn new(address: u64, width: u64) -> Option<Place>
        ensures made { IfSome result (λ place. (place.address ≡ address) × (place.width ≡ width)) }
        ensures refused { IfNone result (cells_of width ≤ 8 → address + cells_of width ≤ 2 ^ 64 → ⊥) }
    {
        let cells = if width == 0 { 1 } else { width };
        if cells > 8 || address > u64::MAX - (cells - 1) {
            return None;
        }
        Some(Place { address, width })
    }

    /// How many cells it has: its bytes, or 1 for a location.
    pub fn cells(&self) -> u64
        ensures { result ≡ cell_count self.now }
    {
        if self.width == 0 { 1 } else { self.width }
    }

    /// Whether the cell at an address is one of its own.
    pub fn covers(&self, cell: u64) -> bool
        ensures { result ≡ covers self.now cell }
    {
        self.address <= cell && cell - self.address < self.cells()
    }

    /// Whether the two share a cell.
    pub fn overlaps(&self, other: &Place) -> bool
        ensures { result ≡ overlaps self.now other.now }
    {
        if self.address <= other.address {
            other.address - self.address < self.cells()
        } else {
            self.address - other.address < other.cells()
        }
    }

    /// Whether the two are one place.
    pub(crate) fn is(&self, other: &Place) -> bool
        ensures { result ≡ is_place self.now other.now }
    {
        self.address == other.address && self.width == other.width
    }

    /// Whether all its cells are cells of another place.
    pub(crate) fn lies_in(&self, other: &Place) -> bool
        ensures { result ≡ lies_in self.now other.now }
    {
        other.address <= self.address
            && self.address - other.address <= other.cells()
            && self.cells() <= other.cells() - (self.address - other.address)
    }

    /// What the cell of this number, from 0, holds of a value: its byte, little-endian, or the whole value; 0 past the last cell.
    pub(crate) fn part(&self, value: u64, number: u64) -> u64
        ensures { result ≡ get_or (cell_parts self.now value) number 0 }
    {
        if number >= self.cells() {
            return 0;
        }
        let mut rest = value;
        for _i in 0..number {
            rest /= 256;
        }
        low_part(self.width, rest)
    }
}

/// What one cell of a place of this width holds of a value: its lowest byte, or the whole value of a location.
pub(crate) fn low_part(width: u64, value: u64) -> u64
    ensures { result ≡ low_part width value }
{
    if width == 0 { value } else { value % 256 }
}

/// Whether a value has no more than so many bytes.
pub(crate) fn fits(width: u64, value: u64) -> bool
    ensures { IsTrue result ↔ (above_bytes width value ≡ 0) }
{
    let mut rest = value;
    for _i in 0..width {
        rest /= 256;
    }
    rest == 0
}
