// The type that each op makes of the types of its operands, or none where its rule doesn't hold.
#![tactic(auto, using(crate::proofs::EqLaws::is_type_is, crate::proofs::EqLaws::same_type_is, crate::proofs::EqLaws::when_is), unfolding(crate::specs::Infer::immediate, crate::specs::Infer::memory, crate::specs::Infer::is_type, crate::specs::Infer::both_types, crate::specs::Infer::load_type, crate::specs::Infer::store_type, crate::specs::Infer::binary_type, crate::specs::Infer::unary_type, crate::specs::Infer::may_cast, crate::specs::Infer::cast_type, crate::specs::Infer::let_type, crate::specs::Infer::ite_type, crate::specs::Infer::extract_type, crate::specs::Infer::concat_type))]

ghost use Rattle.std.specs.Prelude.{◌≡◌, ◌+◌, ◌-◌, ◌≤◌, Some};
ghost use Rattle.typing.specs.Infer as Infer;
ghost use Rattle.typing.specs.Infer.{is_type};

use value::ValueType;

// Was this type found?
pub fn is_type(t: ValueType, o: Option<ValueType>) -> bool
    ensures { result ≡ is_type t o }
{
    o == Some(t)
}

// May a cast go from w bits to p?
fn may_cast(sub: u32, w: u32, p: u32) -> bool
    ensures { result ≡ Infer.may_cast sub w p }
{
    if sub <= word::subs::HIGH {
        p <= w
    } else {
        w <= p
    }
}

// A load of z bits at an address.
pub fn load(z: u32, m: ValueType, e: ValueType) -> Option<ValueType>
    ensures { result ≡ Infer.load_type z (Some m) (Some e) }
{
    let ValueType::Mem(a) = m else { return None };
    (e == ValueType::Imm(a)).then_some(ValueType::Imm(z))
}

// A store of a value of z bits at an address.
pub fn store(z: u32, m: ValueType, e: ValueType, v: ValueType) -> Option<ValueType>
    ensures { result ≡ Infer.store_type z (Some m) (Some e) (Some v) }
{
    let ValueType::Mem(a) = m else { return None };
    (e == ValueType::Imm(a) && v == ValueType::Imm(z)).then_some(m)
}

// A binary operation.
pub fn binary(sub: u32, e: ValueType, f: ValueType) -> Option<ValueType>
    ensures { result ≡ Infer.binary_type sub (Some e) (Some f) }
{
    let ValueType::Imm(w) = e else { return None };
    (e == f).then_some(ValueType::Imm(value::binary_width(sub, w)))
}

// A negation or a complement.
pub fn unary(e: ValueType) -> Option<ValueType>
    ensures { result ≡ Infer.unary_type (Some e) }
{
    let ValueType::Imm(_) = e else { return None };
    Some(e)
}

// A cast to p bits.
pub fn cast(sub: u32, p: u32, e: ValueType) -> Option<ValueType>
    ensures { result ≡ Infer.cast_type sub p (Some e) }
{
    let ValueType::Imm(w) = e else { return None };
    may_cast(sub, w, p).then_some(ValueType::Imm(p))
}

// A let of a variable of type t.
pub fn lets(t: ValueType, e: ValueType, f: ValueType) -> Option<ValueType>
    ensures { result ≡ Infer.let_type t (Some e) (Some f) }
{
    (e == t).then_some(f)
}

// A choice.
pub fn ite(c: ValueType, e: ValueType, f: ValueType) -> Option<ValueType>
    ensures { result ≡ Infer.ite_type (Some c) (Some e) (Some f) }
{
    (c == ValueType::Imm(1) && e == f).then_some(e)
}

// Bits p down to q.
pub fn extract(p: u32, q: u32, e: ValueType) -> Option<ValueType>
    requires q_le_p { q ≤ p }
    requires p_bound { p ≤ q + 63 }
    ensures { result ≡ Infer.extract_type p q (Some e) }
{
    let ValueType::Imm(_) = e else { return None };
    Some(ValueType::Imm(p - q + 1))
}

// Two words as one, of 64 bits at most.
pub fn concat(e: ValueType, f: ValueType) -> Option<ValueType>
    ensures { result ≡ Infer.concat_type (Some e) (Some f) }
{
    let (ValueType::Imm(w), ValueType::Imm(v)) = (e, f) else {
        return None
    };
    let bits = w.checked_add(v)?;
    (bits <= 64).then_some(ValueType::Imm(bits))
}
