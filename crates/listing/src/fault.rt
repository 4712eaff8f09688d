// Why there is no listing, with the faults of the layers below whole inside.
ghost use Rattle.std.specs.Prelude.{◌≡◌, Some};
ghost use Rattle.listing.specs.Faults.{listing_slip, line_fault_name};
ghost use Rattle.listing.specs.declared.fault.LineFault.TheVariants.{Memory, Refused};
ghost use Rattle.listing.specs.declared.fault.ListingFault.TheVariants.{Arithmetic, Plan, Strip};

use levels::fault::ArithmeticFault;
use plan::fault::PlanFault;
use refusal::{Fault, Layer, Slip};
use std::alloc::AllocError;
use std::error::Error;
use std::fmt;
use strip::fault::StripFault;

#[derive(Clone, Copy, Debug, PartialEq, Eq)]
pub enum ListingFault {
    // the input line is malformed
    Malformed,
    Arithmetic(ArithmeticFault),
    Plan(PlanFault),
    Strip(StripFault),
}

impl Fault for ListingFault {
    ghost tells = { listing_slip };

    // Kept: the refusal table's format needs the number and the place of its row.
    fn slip(&self) -> Slip {
        match self {
            ListingFault::Malformed => Slip {
                number: 18,
                layer: Layer::Listing,
                place: 0,
            },
            ListingFault::Arithmetic(fault) => fault.slip(),
            ListingFault::Plan(fault) => fault.slip(),
            ListingFault::Strip(fault) => fault.slip(),
        }
    }
}

// Kept: written by hand, as clauses read `from_gives`, which the derive of the crate thiserror does not give.
impl From<ArithmeticFault> for ListingFault {
    ghost from_gives = { λ f r. r ≡ Arithmetic f };

    fn from(fault: ArithmeticFault) -> ListingFault {
        ListingFault::Arithmetic(fault)
    }
}

impl From<PlanFault> for ListingFault {
    ghost from_gives = { λ f r. r ≡ Plan f };

    fn from(refused: PlanFault) -> ListingFault {
        ListingFault::Plan(refused)
    }
}

impl From<StripFault> for ListingFault {
    ghost from_gives = { λ f r. r ≡ Strip f };

    fn from(fault: StripFault) -> ListingFault {
        ListingFault::Strip(fault)
    }
}

// Why a line was not appended: want of memory, or a refusal.
#[derive(Clone, Copy, Debug, PartialEq, Eq)]
pub enum LineFault {
    Memory,
    Refused(ListingFault),
}

impl fmt::Display for LineFault {
    ghost output = { λ fault. Some (line_fault_name fault) };

    fn fmt<W: fmt::Write>(&self, f: &mut fmt::Formatter<W>) -> fmt::Result {
        match self {
            LineFault::Memory => f.write_str("no memory"),
            LineFault::Refused(_) => f.write_str("a row was refused"),
        }
    }
}

impl Error for LineFault {}

// Kept: written by hand, as clauses read `from_gives`, which the derive of the crate thiserror does not give.
impl From<AllocError> for LineFault {
    ghost from_gives = { λ _ r. r ≡ Memory };

    fn from(_: AllocError) -> LineFault {
        LineFault::Memory
    }
}

impl From<ListingFault> for LineFault {
    ghost from_gives = { λ f r. r ≡ Refused f };

    fn from(fault: ListingFault) -> LineFault {
        LineFault::Refused(fault)
    }
}
