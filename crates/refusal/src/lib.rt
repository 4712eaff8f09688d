// What every refusal tells: its number, the layer that found the fault, and a place. Rests on nothing.
#![tactic(auto)]

ghost use Rattle.std.specs.Prelude.{◌≡◌, Some};
ghost use Rattle.refusal.specs.declared.Slip.{Slip};
ghost use Rattle.refusal.specs.Laws.{FirstRow, NoRow};
ghost use Rattle.refusal.specs.Names.{layer_name};

use std::fmt;

// The part of the library whose call found the fault.
#[derive(Clone, Copy, Debug, PartialEq, Eq)]
pub enum Layer {
    Arithmetic,
    Plan,
    Strip,
    Book,
    Checker,
    Listing,
}

impl fmt::Display for Layer {
    ghost output = { λ layer. Some (layer_name layer) };

    fn fmt<W: fmt::Write>(&self, f: &mut fmt::Formatter<W>) -> fmt::Result {
        f.write_str(match self {
            Layer::Arithmetic => "arithmetic",
            Layer::Plan => "plan",
            Layer::Strip => "strip",
            Layer::Book => "book",
            Layer::Checker => "checker",
            Layer::Listing => "listing",
        })
    }
}

// A line of the refusal table as it is handed out. The place is 0 where the table names none.
// Kept: a number for the row and 0 for no place, because the table's format has them so.
#[derive(Clone, Copy, Debug, PartialEq, Eq)]
pub struct Slip {
    pub number: u8,
    pub layer: Layer,
    pub place: usize,
}

// A fault of any layer tells the slip that it stands for.
pub trait Fault {
    ghost tells: { Self → Slip };

    fn slip(&self) -> Slip
        ensures { result ≡ tells self.now };
}

// The table's reading: a slip is given exactly where its row holds and no row of a smaller number does,
// and none is given exactly where no row holds.
pub fn table_stands()
    ensures given { FirstRow }
    ensures clear { NoRow }
{}
