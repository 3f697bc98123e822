// Region choice: which of the two regions the title wrote last. `current_region` takes the two frame counters, any two numbers of 16 bits,
// and gives the region to read. It refuses nothing. The counters wrap around from 0xFFFF. A region's number is 0 or 1; of any other number
// `try_from` makes no region, and answers refusal 8.
#![tactic(auto)]

ghost use Rattle.std.specs.Prelude.{◌≡◌};
ghost use Rattle.region.specs.Choice.{number_of_region, FromNumber, chosen};

use refusals::Refusal;

// One of the two regions.
#[derive(Clone, Copy, PartialEq, Eq, Debug)]
pub enum Region {
    Zero = 0,
    One = 1,
}

impl TryFrom<u32> for Region {
    type Error = Refusal;

    ghost try_from_gives = { FromNumber };

    fn try_from(number: u32) -> Result<Region, Refusal> {
        match number {
            0 => Ok(Region::Zero),
            1 => Ok(Region::One),
            _ => Err(Refusal::RegionNumber),
        }
    }
}

impl From<Region> for u32 {
    ghost from_gives = { λ region number. number ≡ number_of_region region };

    fn from(region: Region) -> u32 {
        region as u32
    }
}

// The region to read.
pub fn current_region(first: u16, second: u16) -> Region
    ensures { number_of_region result ≡ chosen first second }
{
    if first == 0xFFFF && second != 0xFFFE {
        return Region::One;
    }
    if second == 0xFFFF && first != 0xFFFE {
        return Region::Zero;
    }
    if first > second {
        Region::Zero
    } else {
        Region::One
    }
}
