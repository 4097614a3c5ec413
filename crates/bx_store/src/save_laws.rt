//! Laws of saves: theorems about definitions, whose functions do nothing.
ghost use Rattle.bx_store.specs.SaveLaws.{BytesTellCauses, FramesAreObeyed, SavesCarryTheText};

/// A reader of the bytes of frames obeys these frames, in order, and nothing else.
pub fn frames_are_obeyed()
    ensures { FramesAreObeyed }
{}

/// A reader of the bytes of a save has the text: BEGIN, pieces that are the text when they are joined, and COMMIT.
pub fn saves_carry_the_text()
    ensures { SavesCarryTheText }
{}

/// No two causes have the same byte.
pub fn bytes_tell_causes()
    ensures { BytesTellCauses }
{}
