//! What is known of images, as the contract of a function without a body.

ghost use Rattle.mal_freeze.specs.Laws.{FaultIsFirst, SoundIsFormed, SoundHasImage, ReadIsSpelled, SpelledIsRead, FreshBytes};

/// A sound node of a serial below 2^57 is in form, and so, where it counts conflicts as its profile does, in the form
/// of an image.
pub fn sound_has_image()
    ensures form { SoundIsFormed }
    ensures image { SoundHasImage }
{}

/// What is read of bytes was spelled so.
pub fn read_is_spelled()
    ensures { ReadIsSpelled }
{}

/// What is spelled of an image is read again.
pub fn spelled_is_read()
    ensures { SpelledIsRead }
{}

/// Where a field of an image is faulty, all bytes that begin with those up to its end have this fault.
pub fn fault_is_first()
    ensures { FaultIsFirst }
{}

/// The 65 bytes of the node of index 0 and profile 1 at its first start, and the 69 of that of profile 2.
pub fn fresh_bytes()
    ensures { FreshBytes }
{}
