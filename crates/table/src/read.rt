// What was read off a table's bytes, as far as the refusals that did not come let it be read.
ghost use Rattle.std.specs.Prelude.{◌≡◌, ◌<◌, IfOk};
ghost use Rattle.base.specs.Refusals.{refusal, answer_of};
ghost use Rattle.table.specs.Bytes as Bytes;
ghost use Rattle.table.specs.Records.{Framed, RecordsHold, header_rules};

use crate::bytes::{header, node_at, variable_at};
use crate::framing::{counts_ok, format_ok, sections_ok};
use crate::{Header, Node, Variable};
use base::Refusal;
use base::codes::Code;

// A table whose frame holds, its header read: refusals 1 to 4 did not come.
#[derive(Clone, Copy)]
pub struct Frame<'a> {
    pub bytes: &'a [u8],
    pub header: Header,
    ghost framed: { Framed bytes.now header },
}

impl<'a> Frame<'a> {
    // The first of refusals 1 to 4 that comes, at place 0, or the table's frame.
    pub fn read(s: &'a [u8]) -> Result<Frame<'a>, Refusal>
        ensures answer { answer_of result ≡ refusal (header_rules s.now) }
        ensures bytes { IfOk result (λ frame. frame.bytes ≡ s.entry) }
    {
        if s.len() < 32 {
            return Err(Refusal {
                code: Code::TooShort,
                place: 0,
            });
        }
        let h = header(s);
        if !format_ok(h) {
            return Err(Refusal {
                code: Code::Format,
                place: 0,
            });
        }
        if !counts_ok(h) {
            return Err(Refusal {
                code: Code::Count,
                place: 0,
            });
        }
        if !sections_ok(h, s.len()) {
            return Err(Refusal {
                code: Code::Length,
                place: 0,
            });
        }
        Ok(Frame {
            bytes: s,
            header: h,
        })
    }

    pub fn variable(&self, i: u32) -> Variable
        requires { i < self.now.header.variables }
        ensures { result ≡ Bytes.variable self.now.bytes.now i }
    {
        variable_at(self.bytes, 32 + 8 * i as usize)
    }

    pub fn expression(&self, i: u32) -> Node
        requires { i < self.now.header.expressions }
        ensures { result ≡ Bytes.expression self.now.bytes.now i }
    {
        node_at(
            self.bytes,
            32 + 8 * (self.header.variables as usize) + 16 * (i as usize),
        )
    }

    pub fn statement(&self, i: u32) -> Node
        requires { i < self.now.header.statements }
        ensures { result ≡ Bytes.statement self.now.bytes.now i }
    {
        node_at(
            self.bytes,
            32 + 8 * (self.header.variables as usize)
                + 16 * (self.header.expressions as usize)
                + 16 * (i as usize),
        )
    }
}

// A table whose frame and records hold: refusals 1 to 7 did not come.
#[derive(Clone, Copy)]
pub struct Table<'a> {
    pub frame: Frame<'a>,
    ghost records: { RecordsHold frame.bytes.now },
}
