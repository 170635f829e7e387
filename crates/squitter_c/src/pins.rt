//! Guards of the definitions: each has one value, some value or an exact condition, so none can be weakened unnoticed.
//! A function with an empty body does nothing: its contract is the statement.
ghost use Rattle.sq_message.specs.Kinds.{InAir, OnGround};
ghost use Rattle.squitter_c.specs.OneAnswers.{OneNumber, OnePlace, OneReading, OneSent, OneSentAgain};
ghost use Rattle.squitter_c.specs.Pinned.{OneAngleText};

/// A text or a frame has at most one result: what is written to `out`, and the fault.
pub fn one_reading()
    ensures { OneReading }
{}

/// A frame near a reference, and a pair with a site or without, have at most one result.
pub fn one_place()
    ensures { OnePlace }
{}

/// An angle, its zone count, its value in units of 10^-7 degree, an altitude field and feet have at most one result.
pub fn one_number()
    ensures { OneNumber }
{}

/// A head and a position give at most one frame or one fault, in the air and on the ground.
pub fn one_frame_sent()
    ensures in_air { OneSent InAir }
    ensures on_ground { OneSent OnGround }
{}

/// A frame that is encoded again, with a parity and the code of a position, has at most one result: what is written
/// to `out`, and the fault.
pub fn one_sent_again()
    ensures { OneSentAgain }
{}

/// An angle has at most one text, or one fault, in a buffer of one length.
pub fn one_angle_text()
    ensures { OneAngleText }
{}
