// Space that is lent for a message, and the place up to which it is written. The whole space is kept: a list's
// length is written after what it counts. How much room is asked differs in each call, so that it is a premise
// and no fact of the writer.
#[derive(Drop)]
pub struct Writer<'a> {
    pub out: &'a mut [u8],
    pub at: usize,
}
