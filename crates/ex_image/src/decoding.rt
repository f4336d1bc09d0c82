// Bytes are read as an image.
ghost use Rattle.std.specs.Prelude.{ℕ, List, IfErr, IfOk};
ghost use Rattle.cm_io.specs.declared.status.Kind.{Kind};
ghost use Rattle.ex_image.specs.Decoding.{IsBadAt, IsStore, Tells};
ghost use Rattle.ex_image.specs.Grammar.{FirstBad, IsImage, IsImageIn};
ghost use Rattle.ex_store.specs.State.{State};

use crate::ImageFault;
use crate::reading::Reading;
use ex_store::Store;
use std::alloc::Global;

// What the records of an image say.
#[tactic(auto, using(crate::proofs::Endings::bad_here, crate::proofs::Endings::whole_here, crate::proofs::Sizes::read_size))]
fn read(alloc: Global, bytes: &[u8]) -> Result<Reading, ImageFault>
    ensures whole { IfOk result (λ reading. IsImageIn reading.version bytes.now reading.state) }
    ensures bad { IfErr result (λ fault. Tells bytes.now fault) }
{
    let mut reading = Reading::new(alloc);
    let mut rest = bytes;
    while !reading.is_complete(rest) {
        match reading.record_at(rest) {
            Ok(next) => {
                reading.add(alloc, &next)?;
                rest = next.after;
            }
            Err(kind) => {
                let at = (bytes.len() - rest.len()) as u32;
                return Err(ImageFault::Bad { at, kind });
            }
        }
    }
    Ok(reading)
}

/// The store of which the bytes are the image, in either version. Bad exactly where they are an image of none, with the
/// place and the kind of the first record that is wrong after those before it.
#[tactic(auto, using(crate::proofs::DecodeLaws::whole_there))]
pub fn decode(alloc: Global, bytes: &[u8]) -> Result<Store, ImageFault>
    // [image-read]
    ensures image { IfOk result (λ store. IsImage bytes.now store.state) }
    // [image-fault]
    ensures bad { IfErr result (λ fault. Tells bytes.now fault) }
    ensures only { (wanted : State) → IsImage bytes.now wanted → IsStore result wanted }
    ensures first { (place : ℕ) → (kind : Kind) → FirstBad bytes.now place kind → IsBadAt result place kind }
{
    match read(alloc, bytes) {
        Ok(mut reading) => {
            reading.migrate();
            Ok(reading.done())
        }
        Err(fault) => Err(fault),
    }
}
