// A text that is made in a buffer, by bytes and numbers put one behind the other.
ghost use Rattle.std.specs.Prelude.{◌+◌, ◌≤◌, length};
ghost use Rattle.report.specs.Lines as Lines;
ghost use Rattle.report.specs.Placed.{Puts};

// A text: the buffer that holds it, and the place where it ends.
//
// The lines are no `impl Display`: a writer may refuse, and of what it wrote by then no clause speaks. Where there is room these are put.
#[derive(Drop)]
pub struct Text<'a> {
    pub buffer: &'a mut [u8],
    pub end: usize,
}

impl Text<'_> {
    // Bytes.
    pub fn add(&mut self, bytes: &[u8])
        requires { self.old.end + length bytes.now ≤ length self.old.buffer.now }
        ensures { Puts (length bytes.now) self.old bytes.now self.new }
    {
        let end = self.end + bytes.len();
        self.buffer[self.end..end].copy_from_slice(bytes);
        self.end = end;
    }

    // A number in decimal.
    pub fn number(&mut self, n: u64)
        requires { self.old.end + 20 ≤ length self.old.buffer.now }
        ensures { Puts 20 self.old (Lines.decimal n) self.new }
    {
        let mut digits = [0u8; 20];
        let k = io::decimal(n, &mut digits);
        self.add(&digits[..k]);
    }

    // A space and a number in decimal.
    pub fn field(&mut self, n: u64)
        requires { self.old.end + 21 ≤ length self.old.buffer.now }
        ensures { Puts 21 self.old (Lines.field n) self.new }
    {
        self.add(b" ");
        self.number(n);
    }
}
