//! A whole text put into an output.
ghost use Rattle.igvm_outside.specs.SinkCalls.{Puts};

use crate::Sink;
use igvm_headers::Failed;

/// Puts a text, in as many pieces as the output takes it. It takes no memory.
pub fn put_all<O: Sink>(sink: &mut O, text: &[u8]) -> Result<(), Failed>
    ensures { Puts O.Sink text.now result sink.old sink.new }
{
    let mut at = 0;
    'pieces: while at < text.len() {
        at += sink.put(&text[at..])?;
    }
    Ok(())
}
