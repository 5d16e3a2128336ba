//! A call of a client.
/// A client's call: who called, and the number of the call.
#[derive(Clone, Copy)]
pub struct Call {
    pub client: [u8; 16],
    pub number: u32,
}
