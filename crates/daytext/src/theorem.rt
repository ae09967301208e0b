// What holds of the text form and of the bytes as such, without a call.
ghost use Rattle.daytext.specs.RoundTrip.{RoundTrip};

/// The bytes of every record are read back as that record, whatever comes after them, and its line means that record.
pub fn round_trip_holds() -> u8
    ensures { RoundTrip }
{
    0
}
