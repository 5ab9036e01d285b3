// The registers of a board.
#![tactic(auto)]

ghost use Rattle.std.specs.Prelude.{◌≡◌, false};
ghost use Rattle.registers.specs.Codes.{pair_number};
ghost use Rattle.registers.specs.State.{plain, fresh, with_flags};
ghost use Rattle.registers.specs.Accesses.{admitted, pointed, entered, loaded, answered, armed, retraced, interrupted};

pub use access::{Access, Choice, Pair};
pub use cursor::{Axis, Cursor};
use planes::Refusal;
pub use unit::Unit;
pub use width::Width;

pub mod access;
pub mod cursor;
pub mod unit;
pub mod width;

// The cursors are a table of four, a rule of the project. Bit 0 of `status` is D8. `ahead` is the word under way, if there is one.
#[derive(Clone, Copy, PartialEq, Eq, Debug)]
pub struct Registers {
    pub source: u16,
    pub mask: u16,
    pub function: u8,
    pub width: Width,
    pub status: u8,
    pub flag: bool,
    pub ahead: Option<u16>,
    pub unit: Unit,
    pub cursors: [Cursor; 4],
}

impl Registers {
    // Zero in every register and cursor, width 16, no flag and no word under way.
    pub fn new(unit: Unit) -> Registers
        ensures { plain result ≡ fresh unit.number }
    {
        Registers {
            source: 0,
            mask: 0,
            function: 0,
            width: Width::coded(0),
            status: 0,
            flag: false,
            ahead: None,
            unit,
            cursors: [Cursor::default(); 4],
        }
    }

    // The access that an address asks for, or the first refusal that fits.
    pub fn admit(&self, address: u32) -> Result<Access, Refusal>
        ensures { result ≡ admitted address (plain self.now) }
    {
        if address % 2 == 1 || address > 0xF_FFFF {
            return Err(Refusal::BadAddress);
        }
        if address / 131072 % 8 != u32::from(self.unit.number()) {
            return Err(Refusal::OtherUnit);
        }
        if self.ahead.is_some() {
            return Err(Refusal::WordUnderWay);
        }
        Ok(Access::of(address))
    }

    // Sets one coordinate of one pair.
    pub fn point(&mut self, access: Access)
        ensures { plain self.new ≡ pointed access (plain self.old) }
    {
        self.cursors[access.pair.number()].set(access.axis, access.place);
    }

    // The place that a pair holds.
    pub fn cursor(&self, pair: Pair) -> Cursor
        ensures { result ≡ (plain self.now).cursors (pair_number pair) }
    {
        self.cursors[pair.number()]
    }

    // Writes the register that an access chose; the last control register is the flag, which any write clears.
    pub fn enter(&mut self, access: Access, value: u16)
        ensures { plain self.new ≡ entered access value (plain self.old) }
    {
        match access.choice {
            Choice::Nothing => {}
            Choice::Control => {
                let [high, low] = value.to_be_bytes();
                // By number: on the bus the coordinate says which control register, and any coordinate may.
                match access.place % 4 {
                    0 => self.function = low,
                    1 => self.width = Width::coded(value),
                    2 => self.status = high,
                    _ => self.flag = false,
                }
            }
            Choice::Source => self.source = value,
            Choice::Mask => self.mask = value,
        }
    }

    // Loads the register that an access chose with the sixteen stitches at its place. Of the control registers only the flag answers to a read, and is cleared.
    pub fn load(&mut self, access: Access, word: u16)
        ensures { plain self.new ≡ loaded access word (plain self.old) }
    {
        match access.choice {
            Choice::Control if access.place % 4 == 3 => self.flag = false,
            Choice::Nothing | Choice::Control => {}
            Choice::Source => self.source = word,
            Choice::Mask => {
                let x = self.cursor(access.pair).x;
                self.mask = words::window(word, word, 16 - x.0 % 16);
            }
        }
    }

    // What a read answers: the source, in the width's bits.
    pub fn answer(&self) -> u16
        ensures { result ≡ answered (plain self.now) }
    {
        self.source & words::ones(self.width.stitches())
    }

    // Clears status and flag.
    pub fn init(&mut self)
        ensures { plain self.new ≡ with_flags 0 false (plain self.old) }
    {
        self.status = 0;
        self.flag = false;
    }

    // Whether D8 is 1.
    fn armed(&self) -> bool
        ensures { result ≡ armed (plain self.now) }
    {
        self.status % 2 == 1
    }

    // Sets the flag if D8 is 1.
    pub fn retrace(&mut self)
        ensures { plain self.new ≡ retraced (plain self.old) }
    {
        if self.armed() {
            self.flag = true;
        }
    }

    // The level in D13 to D15 while flag and D8 are both 1.
    pub fn interrupt(&self) -> Option<u8>
        ensures { result ≡ interrupted (plain self.now) }
    {
        (self.flag && self.armed()).then_some(self.status / 32)
    }
}
