/// The class of an exception (Erlang Reference Manual, "Errors and Error Handling").
#[derive(Clone, Copy, Debug, PartialEq, Eq)]
pub enum Class3 {
    Error,
    Exit,
    Throw,
}
