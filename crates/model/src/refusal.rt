ghost use Rattle.std.specs.Prelude.{◌≡◌};
ghost use Rattle.model.specs.Numbers.{number_of};

use std::error::Error;
use std::fmt;

// Why a call is refused, or a file: the refusals of the table, in the order of their numbers.
#[derive(Clone, Copy, Debug, PartialEq, Eq)]
pub enum Refusal {
    Vehicles,
    Stops,
    Table,
    Lengths,
    Draws,
    Locations,
    Distances,
    Prices,
    Smoothing,
    Limit,
    Plan,
    Given,
    TooLarge,
    File,
    Vans,
    Live,
    NotLive,
}

// The number of a refusal in the table, which hosts and programs are told.
impl From<Refusal> for u32 {
    ghost from_gives = { λ r n. n ≡ number_of r };

    fn from(refusal: Refusal) -> u32 {
        match refusal {
            Refusal::Vehicles => 1,
            Refusal::Stops => 2,
            Refusal::Table => 3,
            Refusal::Lengths => 4,
            Refusal::Draws => 5,
            Refusal::Locations => 6,
            Refusal::Distances => 7,
            Refusal::Prices => 8,
            Refusal::Smoothing => 9,
            Refusal::Limit => 10,
            Refusal::Plan => 11,
            Refusal::Given => 12,
            Refusal::TooLarge => 13,
            Refusal::File => 14,
            Refusal::Vans => 15,
            Refusal::Live => 16,
            Refusal::NotLive => 17,
        }
    }
}

// The sentences of include/refusals.txt, in short.
impl fmt::Display for Refusal {
    fn fmt<W: fmt::Write>(&self, f: &mut fmt::Formatter<W>) -> fmt::Result {
        f.write_str(match self {
            Refusal::Vehicles => "the vehicle list is odd, or it has more than 32 numbers",
            Refusal::Stops => "there are more than 64 stops",
            Refusal::Table => "there are more than 80 locations, or the table does not fit them",
            Refusal::Lengths => "the plan, or the list of a view, is not as long as it has to be",
            Refusal::Draws => "the draws are not 1 to 1024 numbers",
            Refusal::Locations => "a vehicle, a stop or the road is at no location of the table",
            Refusal::Distances => "a distance is over 200000 metres",
            Refusal::Prices => "a price is over its limit",
            Refusal::Smoothing => "the smoothing count is not 1 to 1000",
            Refusal::Limit => "the round limit is not 1 to 1000000",
            Refusal::Plan => "the plan is not in plan form, or the live set does not fit it",
            Refusal::Given => "the given stops do not exist, are equal, or are too many",
            Refusal::TooLarge => "there are more than 6 stops or 3 vehicles",
            Refusal::File => "the file is not in the form of a job file",
            Refusal::Vans => "the set of vans or the move is not the caller's",
            Refusal::Live => "the stop that arrives is live already",
            Refusal::NotLive => "the stop that is cancelled is not live",
        })
    }
}

impl Error for Refusal {}
