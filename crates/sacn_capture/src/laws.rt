//! Laws of the definitions alone.

ghost use Rattle.sacn_capture.specs.Calls.{CallsGiveTheRecording};

/// Whatever any number of calls of `Capture::next` give, one after another, is of the recording: the frames are its first ones, in
/// order, with none left out and none made up; where a call says that the file has ended, all were given; and a fault is the
/// recording's own, behind all its frames, or one that no octet of the file tells (Device, OutOfMemory).
pub fn calls_give_the_recording()
    ensures { CallsGiveTheRecording }
{}
