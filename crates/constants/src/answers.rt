// The answer for a constant: in a file of its own, as a name that differs from `constant` in case alone.
use reader::Span;

#[derive(Clone, Copy, PartialEq, Debug)]
pub enum Constant {
    Nil,
    Bool(bool),
    Int(i64),
    Float(f64),
    Text(Span),
}
