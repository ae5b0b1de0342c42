//! Laws of capture files. They are about the definitions alone and do nothing.

ghost use Rattle.capture_pcap.specs.Laws.{EachFileIsRead, EachRestIsRead, FileHasOneReading, WhatWasReadStays};

/// The bytes of a file have exactly one reading: these packets, and this ending.
pub fn file_has_one_reading()
    ensures { FileHasOneReading }
{}

/// Every file has a reading: it has packets, and an ending.
pub fn each_file_is_read()
    ensures { EachFileIsRead }
{}

/// The rest of a partly read file has a reading, whatever bytes follow.
pub fn each_rest_is_read()
    ensures { EachRestIsRead }
{}

/// The packets that were read from a prefix of a file stay valid if more bytes follow. The packets of the shorter file
/// are the first packets of the longer one. An error in the shorter file is the longer file's error, at the same
/// offset, after the same packets.
pub fn what_was_read_stays()
    ensures { WhatWasReadStays }
{}
