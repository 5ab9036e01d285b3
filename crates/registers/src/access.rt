// What an address asks for: a coordinate of a pair, a register, and whether stitches are updated.
ghost use Rattle.std.specs.Prelude.{◌≡◌, ◌<◌};
ghost use Rattle.registers.specs.Codes.{pair_number};
ghost use Rattle.registers.specs.Accesses.{access_of, address_of, Asks};

use crate::cursor::Axis;
use crate::unit::Unit;

// One of the four cursor pairs.
#[derive(Clone, Copy, PartialEq, Eq, Debug)]
pub enum Pair {
    Zero,
    One,
    Two,
    Three,
}

// Which register an access writes or loads; for `Control` the coordinate says which.
#[derive(Clone, Copy, PartialEq, Eq, Debug)]
pub enum Choice {
    Nothing,
    Control,
    Source,
    Mask,
}

#[derive(Clone, Copy, PartialEq, Eq, Debug)]
pub struct Access {
    pub place: u16,
    pub axis: Axis,
    pub pair: Pair,
    pub choice: Choice,
    pub update: bool,
}

impl Pair {
    // Its number, below 4. A method, and no cast at each use, since that is a promise.
    pub fn number(self) -> usize
        ensures told { result ≡ pair_number self }
        ensures small { result < 4 }
    {
        self as usize
    }
}

impl Access {
    // The access that the low seventeen bits of an address ask for. Not a `From`, since it drops the others.
    pub fn of(address: u32) -> Access
        ensures { result ≡ access_of address }
    {
        // Two matches: a `TryFrom` would bring an error that two bits cannot cause.
        let pair = match address / 4096 % 4 {
            0 => Pair::Zero,
            1 => Pair::One,
            2 => Pair::Two,
            _ => Pair::Three,
        };
        let choice = match address / 16384 % 4 {
            0 => Choice::Nothing,
            1 => Choice::Control,
            2 => Choice::Source,
            _ => Choice::Mask,
        };
        Access {
            // the cast narrows ten bits
            place: (address / 2 % 1024) as u16,
            axis: if address / 2048 % 2 == 1 {
                Axis::Down
            } else {
                Axis::Across
            },
            pair,
            choice,
            update: address / 65536 % 2 == 1,
        }
    }

    // The address that asks a unit for this access; of the coordinate it has the low ten bits.
    pub fn address(self, unit: Unit) -> u32
        ensures value { result ≡ address_of unit.number self }
        ensures back { self.place < 1024 → Asks unit.number self result }
    {
        2 * (u32::from(self.place) % 1024)
            + 2048 * (self.axis as u32)
            + 4096 * (self.pair as u32)
            + 16384 * (self.choice as u32)
            + 65536 * u32::from(self.update)
            + 131072 * u32::from(unit.number())
    }
}
