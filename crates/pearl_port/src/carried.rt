// Values that are made cells and read from cells, each type for the cells of one family.

ghost use Rattle.std.specs.Prelude.{◌≡◌, ℕ, Option};
ghost use Rattle.pearl_value.specs.declared.cell.Cell.{Cell as Cells};
ghost use Rattle.pearl_port.specs.Families.{Carries};

use pearl_value::cell::Cell;

/// The values of one family of kinds, of every length. Each is a cell in another shape.
pub trait Carried {
    /// The number of the family.
    const FAMILY: u8;

    ghost FAMILY: { ℕ };

    /// The cell that a value is.
    ghost cell_of: { Self → Cells };

    /// The value that a cell is, where it is one of the family.
    ghost read: { Cells → Option Self };

    /// The value as a cell.
    fn to_cell(&self) -> Cell
        ensures { result ≡ cell_of self.now };

    /// The value that a cell is; none exactly where the cell is of another family or a reference.
    fn from_cell(cell: &Cell) -> Option<Self>
        ensures { result ≡ read cell.now };

    /// What was made a cell is read again, and nothing is read from a cell of another family.
    ghost carries: { Carries FAMILY cell_of read };
}
