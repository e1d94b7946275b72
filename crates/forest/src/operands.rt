// The expressions that a record names, by its op.
ghost use Rattle.std.specs.Prelude.{◌≡◌};
ghost use Rattle.std.specs.Iterator.{YieldsFirst, item_count};
ghost use Rattle.table.specs.Fields.{operands, expression_row, statement_row};
ghost use Rattle.forest.specs.Counting.{listed};

use table::{Node, ops};

// At most three expressions, in the order of the record's fields. How many they are is what the walks of types and labels match on.
#[derive(Clone, Copy)]
pub enum Operands {
    Leaf,
    One(u32),
    Two(u32, u32),
    Three(u32, u32, u32),
}

// The operands one after the other.
impl Iterator for Operands {
    type Item = u32;

    ghost next_gives = { YieldsFirst listed };

    ghost remaining = { item_count listed };

    fn next(&mut self) -> Option<u32> {
        match *self {
            Operands::Leaf => None,
            Operands::One(a) => {
                *self = Operands::Leaf;
                Some(a)
            }
            Operands::Two(a, b) => {
                *self = Operands::One(b);
                Some(a)
            }
            Operands::Three(a, b, c) => {
                *self = Operands::Two(b, c);
                Some(a)
            }
        }
    }
}

// The operands of an expression's record. An op that is not listed has none.
#[tactic(auto, unfolding(table::specs::Fields::operands, table::specs::Fields::expression_row, table::specs::Fields::expression_rows))]
pub fn of_expression(r: Node) -> Operands
    ensures { listed result ≡ operands (expression_row r) r }
{
    let op = r.op;
    match op {
        ops::VAR => Operands::Leaf,
        ops::WORD => Operands::Leaf,
        ops::LOAD => Operands::Two(r.a, r.b),
        ops::STORE => Operands::Three(r.a, r.b, r.c),
        ops::BINARY => Operands::Two(r.a, r.b),
        ops::UNARY => Operands::One(r.a),
        ops::CAST => Operands::One(r.a),
        ops::LET => Operands::Two(r.b, r.c),
        ops::UNKNOWN => Operands::Leaf,
        ops::ITE => Operands::Three(r.a, r.b, r.c),
        ops::EXTRACT => Operands::One(r.a),
        ops::CONCAT => Operands::Two(r.a, r.b),
        _ => Operands::Leaf,
    }
}

// The expressions that a statement's record names.
#[tactic(auto, unfolding(table::specs::Fields::operands, table::specs::Fields::statement_row, table::specs::Fields::statement_rows))]
pub fn of_statement(r: Node) -> Operands
    ensures { listed result ≡ operands (statement_row r) r }
{
    let op = r.op;
    match op {
        ops::MOVE => Operands::One(r.b),
        ops::JMP => Operands::One(r.a),
        ops::CPUEXN => Operands::Leaf,
        ops::SPECIAL => Operands::Leaf,
        ops::WHILE => Operands::One(r.a),
        ops::IF => Operands::One(r.a),
        _ => Operands::Leaf,
    }
}
