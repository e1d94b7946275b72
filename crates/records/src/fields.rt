// What the fields of a record hold.
ghost use Rattle.std.specs.Prelude.{◌≡◌, ◌&&◌, List, ℕ, ltb, eqb};
ghost use Rattle.table.specs.Bytes as Bytes;
ghost use Rattle.table.specs.Fields as Fields;
ghost use Rattle.table.specs.Records.{field_ok};

use base::within;
use table::read::Frame;

// Whether each field of a record is what its row says, in their order, and what the row asks beyond them holds.
pub(crate) fn all(sub: bool, p: bool, q: bool, a: bool, b: bool, c: bool, also: bool) -> bool
    ensures { result ≡ (sub && (p && (q && (a && (b && (c && also)))))) }
{
    sub & (p & (q & (a & (b & (c & also)))))
}

// Whether x is a multiple of 8 from 8 to 64.
pub(crate) fn size(x: u32) -> bool
    ensures { (s : List ℕ) (n : ℕ) → result ≡ field_ok s n Fields.size x }
{
    (x % 8 == 0) & within(8, 64, x)
}

// Whether x is the number of a variable of a role.
pub fn variable_of(frame: &Frame, role: u32, x: u32) -> bool
    ensures { result ≡ (ltb x (Bytes.header frame.now.bytes.now).variables && eqb (Bytes.variable frame.now.bytes.now x).role role) }
{
    x < frame.header.variables && frame.variable(x).role == role
}
