// Words of sixteen bits, bit 15 leftmost: windows and merges over two words side by side, and the function unit on whole words.
#![tactic(auto)]

ghost use Rattle.std.specs.Prelude.{◌≡◌, ℕ, ◌+◌, ◌-◌, ◌*◌, ◌/◌, ◌%◌, ◌<◌, ◌&&◌, if◌then◌else◌, ◌==◌, nat_eq, nat_lt};
ghost use Rattle.words.specs.Bit.{bit, across, index, placed};

pub use storing::{joined, store};
pub use turning::reverse;

pub mod storing;
pub mod turning;

// Each bit of the answer is a's where `choice` has a 1, and b's where it has a 0.
fn mux(choice: u16, a: u16, b: u16) -> u16
    ensures { (j : ℕ) → j < 16 → bit result j ≡ (if bit choice j then bit a j else bit b j) }
{
    (choice & a) | (!choice & b)
}

// Sixteen copies of bit i of `code`.
fn spread(code: u8, i: u8) -> u16
    requires { i < 8 }
    ensures { (j : ℕ) → j < 16 → bit result j ≡ bit code i }
{
    if (code >> i) & 1 == 1 { 0xffff } else { 0 }
}

// At each place, bit i + 1 of `code` where d has a 1, and bit i where it has a 0.
fn pair(code: u8, i: u8, d: u16) -> u16
    requires { i < 7 }
    ensures { (j : ℕ) → j < 16 → bit result j ≡ (if bit d j then bit code (i + 1) else bit code i) }
{
    let one = spread(code, i + 1);
    let zero = spread(code, i);
    mux(d, one, zero)
}

// The function unit: at each place of the three words, the bit of `code` that their three bits choose.
pub fn combine(code: u8, m: u16, s: u16, d: u16) -> u16
    ensures { (j : ℕ) → j < 16 → bit result j ≡ bit code (index (bit m j) (bit s j) (bit d j)) }
{
    let neither = pair(code, 0, d);
    let source = pair(code, 2, d);
    let mask = pair(code, 4, d);
    let both = pair(code, 6, d);
    let under = mux(s, both, mask);
    let outside = mux(s, source, neither);
    mux(m, under, outside)
}

// `old` with the bits of `new` where `here` has ones.
pub fn put(old: u16, here: u16, new: u16) -> u16
    ensures { (j : ℕ) → bit result j ≡ (if bit here j then bit new j else bit old j) }
{
    old ^ (here & (old ^ new))
}

// The sixteen bits of left:right from place `from` mod 16 on.
pub fn window(left: u16, right: u16, from: u16) -> u16
    ensures { (k : ℕ) → k < 16 → bit result (15 - k) ≡ across left right (from % 16 + k) }
{
    let shift = from % 16;
    if shift == 0 {
        left
    } else {
        (left << shift) | (right >> (16 - shift))
    }
}

// `value` laid over two words from place `from` mod 16 on, with zeros around it.
pub fn lay(value: u16, from: u16) -> (u16, u16)
    ensures { (i : ℕ) → i < 32 → across result.0 result.1 i ≡ placed value (from % 16) i }
{
    let both = u32::from(value) << (16 - from % 16);
    // Halves by `as`: each fits, and `try_from` would bring an error that cannot come.
    ((both >> 16) as u16, (both & 0xffff) as u16)
}

// A word whose first `count` bits are ones.
pub fn ones(count: u16) -> u16
    ensures { (k : ℕ) → k < 16 → bit result (15 - k) ≡ nat_lt k count }
{
    !u16::MAX.checked_shr(u32::from(count)).unwrap_or(0)
}

// The eight bits of a byte, one at every other place of a word, the last at bit 0. By sums: no method of the library spreads bits.
fn spread_out(b: u8) -> u16
    ensures { (k : ℕ) → k < 16 → bit result k ≡ (k % 2 == 0 && bit b (k / 2)) }
{
    let b = u16::from(b);
    let low = b % 2 + b / 2 % 2 * 4 + b / 4 % 2 * 16 + b / 8 % 2 * 64;
    let high = b / 16 % 2 + b / 32 % 2 * 4 + b / 64 % 2 * 16 + b / 128 % 2 * 64;
    high * 256 + low
}

// The bits at every other place of a word, from bit 0 on, as a byte. By sums, likewise; the last sum fits a byte.
fn draw_in(v: u16) -> u8
    ensures { (j : ℕ) → j < 8 → bit result j ≡ bit v (2 * j) }
{
    let low = v % 2 + v / 4 % 2 * 2 + v / 16 % 2 * 4 + v / 64 % 2 * 8;
    let high = v / 256 % 2 + v / 1024 % 2 * 2 + v / 4096 % 2 * 4 + v / 16384 % 2 * 8;
    (high * 16 + low) as u8
}

// The bits of two bytes in turn, `even` first.
pub fn interleave(even: u8, odd: u8) -> u16
    ensures { (i : ℕ) → i < 16 → bit result (15 - i) ≡ bit (if nat_eq (i % 2) 0 then even else odd) (7 - i / 2) }
{
    let first = spread_out(even);
    let second = spread_out(odd);
    (first << 1) | second
}

// The bits of a word in turn into two bytes: those at even places from the left, and those at odd ones.
pub fn deal(word: u16) -> (u8, u8)
    ensures { (i : ℕ) → i < 16 → bit (if nat_eq (i % 2) 0 then result.0 else result.1) (7 - i / 2) ≡ bit word (15 - i) }
{
    let even = draw_in(word >> 1);
    let odd = draw_in(word);
    (even, odd)
}
