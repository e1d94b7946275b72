// Values: a word, unknown, or a memory. Unknown keeps its type.
//
// Each operation takes the value itself and hands back the resulting value with its width, exactly as specs/Values.antt says.
// It asks that its operands are sound (a word fits its width) and have the types that paper 01's type rules ask for. That a value is sound
// stays a clause: as the type's invariant it would be asked of every caller, and `type_of` and `size` take any value.
#![tactic(auto)]

ghost use Rattle.std.specs.Prelude.{◌≡◌, ◌+◌, ◌-◌, ◌≤◌};
ghost use Rattle.word.specs.Words.{Width};
ghost use Rattle.word.specs.Subs as Subs;
ghost use Rattle.value.specs.Values as Values;
ghost use Rattle.value.specs.Values.{Sound, Yields, type_of, size, bits};

// The type of a value.
#[derive(Clone, Copy, PartialEq, Eq, Debug)]
pub enum ValueType {
    // An immediate: its width.
    Imm(u32),
    // A memory of bytes: its address width.
    Mem(u32),
}

#[derive(Clone, Copy, PartialEq, Eq, Debug)]
pub enum Value {
    // A word: its width and its bits.
    Word(u32, u64),
    // Unknown: its type.
    Unknown(ValueType),
    // A memory: its address width and the log entry that its chain starts at.
    Memory(u32, u64),
}

// A computed word, or unknown, as a value of w bits.
fn computed(w: u32, known: Option<u64>) -> Value
    ensures { result ≡ Values.computed w known }
{
    known.map_or(Value::Unknown(ValueType::Imm(w)), |a| Value::Word(w, a))
}

// The bits of what a binary operation gives: one for a comparison, else those of its operands.
pub fn binary_width(sub: u32, w: u32) -> u32
    ensures { result ≡ Subs.binary_width sub w }
{
    if sub <= word::subs::ASR { w } else { 1 }
}

impl ValueType {
    // The bits of an immediate, or of a memory's addresses.
    pub fn size(self) -> u32
        ensures { result ≡ size self }
    {
        match self {
            ValueType::Imm(w) => w,
            ValueType::Mem(w) => w,
        }
    }
}

impl Value {
    // The value's type.
    pub fn type_of(self) -> ValueType
        ensures { result ≡ type_of self }
    {
        match self {
            Value::Word(w, _) => ValueType::Imm(w),
            Value::Unknown(t) => t,
            Value::Memory(w, _) => ValueType::Mem(w),
        }
    }

    // The bits of a word. An operation on a value that has none gives unknown.
    fn bits(self) -> Option<u64>
        ensures { result ≡ bits self }
    {
        match self {
            Value::Word(_, a) => Some(a),
            Value::Unknown(_) | Value::Memory(_, _) => None,
        }
    }

    // The binary operation of a sub on two values of one type.
    pub fn binary(self, sub: u32, other: Value) -> Value
        requires sound { Sound self }
        requires sound_2 { Sound other }
        requires self_value { type_of self ≡ type_of other }
        ensures { Yields (Values.binary_type sub (type_of self)) (Values.binary sub self other) result }
    {
        let w = self.type_of().size();
        let both = self.bits().zip(other.bits());
        let known = both.and_then(|(a, b)| word::binary(sub, w, a, b));
        computed(binary_width(sub, w), known)
    }

    // The unary operation of a sub.
    pub fn unary(self, sub: u32) -> Value
        requires { Sound self }
        ensures { Yields (ValueType.Imm (size (type_of self))) (Values.unary sub self) result }
    {
        let w = self.type_of().size();
        let known = self.bits().and_then(|a| word::unary(sub, w, a));
        computed(w, known)
    }

    // The cast of a sub to p bits.
    pub fn cast(self, sub: u32, p: u32) -> Value
        requires sound { Sound self }
        requires width { Width p }
        requires cast_fits { Subs.CastFits sub (size (type_of self)) p }
        ensures { Yields (ValueType.Imm p) (Values.cast sub p self) result }
    {
        let w = self.type_of().size();
        let known = self.bits().and_then(|a| word::cast(sub, w, p, a));
        computed(p, known)
    }

    // Bits p down to q, with zeros above the word.
    pub fn extract(self, p: u32, q: u32) -> Value
        requires sound { Sound self }
        requires q_le_p { q ≤ p }
        requires p_bound { p ≤ q + 63 }
        ensures { Yields (ValueType.Imm (p - q + 1)) (Values.extract p q self) result }
    {
        let w = self.type_of().size();
        let known = self.bits().map(|a| word::join::extract(w, p, q, a));
        computed(p - q + 1, known)
    }

    // This value above another, of 64 bits together at most.
    pub fn concat(self, other: Value) -> Value
        requires sound { Sound self }
        requires sound_2 { Sound other }
        requires other_bound { size (type_of self) + size (type_of other) ≤ 64 }
        ensures { Yields (Values.concat_type (type_of self) (type_of other)) (Values.concat self other) result }
    {
        let v = self.type_of().size();
        let u = other.type_of().size();
        let both = self.bits().zip(other.bits());
        let known = both.map(|(a, b)| word::join::concat(v, u, a, b));
        computed(v + u, known)
    }

    // An ite with this value as its condition: one of two values of one type, or unknown of that type.
    pub fn choose(self, then: Value, other: Value) -> Value
        requires sound { Sound then }
        requires sound_2 { Sound other }
        requires then_value { type_of then ≡ type_of other }
        ensures { Yields (type_of then) (Values.choose self then other) result }
    {
        match self.bits() {
            Some(c) => { if c == 1 { then } else { other } }
            None => Value::Unknown(then.type_of()),
        }
    }
}
