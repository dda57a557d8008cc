// What holds of all entries and files.
ghost use Rattle.log_entry.specs.Reading.{IsOneEncoding};
ghost use Rattle.log_entry.specs.Prefix.{AreEncoded, AreFound, GrowsByAppend, IsLongest};

/// No entry's encoding begins that of another entry, nor its own with another prev field.
pub fn one_encoding()
    ensures { IsOneEncoding }
{}

/// A file's bytes are its valid prefix's encodings and a torn tail that goes on with no entry; what is
/// encoded is the valid prefix again; and an append of an entry whose prev field is the last entry's
/// offset adds that entry.
pub fn prefixes_are_encodings()
    ensures encoded { AreEncoded }
    ensures found { AreFound }
    ensures grows { GrowsByAppend }
    ensures longest { IsLongest }
{}
