//! Laws of the forms, over all requests, replies, blocks and bytes.
ghost use Rattle.xdlms_services.specs.BlockLaws.{BlocksBringValue, BlocksEnd, SizeOfBlock, MostRawFits, OneBlock, OneFault, BlockIsNoFault};
ghost use Rattle.xdlms_services.specs.Grammar.{OneRequest};
ghost use Rattle.xdlms_services.specs.Reading.{ReadingIsGrammar};
ghost use Rattle.xdlms_services.specs.Replies.{OneReply};
ghost use Rattle.xdlms_services.specs.Requests.{WrittenRequestsAreRead};

/// A byte list is a form of one request at most.
pub fn one_request()
    ensures { OneRequest }
{}

/// Reading from left to right gives a request exactly where the bytes are a form of it.
pub fn reading_is_grammar()
    ensures { ReadingIsGrammar }
{}

/// The shortest bytes of a request are read as that request.
pub fn written_requests_are_read()
    ensures { WrittenRequestsAreRead }
{}

/// A byte list is a form of one reply at most: it determines the service, the invoke byte and the
/// reply.
pub fn one_reply()
    ensures { OneReply }
{}

/// A value is sent in blocks that come to an end.
///
/// Whatever the limit, the blocks joined are the value's canonical encoding, and their numbers are 1, 2, 3 and so on. Each but the
/// last takes the most bytes that the limit has room for. The last, and no other, says that it is the last.
pub fn blocks_are_the_value()
    ensures end { BlocksEnd }
    ensures bring { BlocksBringValue }
{}

/// How many bytes the APDU of a block has, and which numbers of raw bytes keep within a limit.
pub fn blocks_keep_within_the_limit()
    ensures size { SizeOfBlock }
    ensures most { MostRawFits }
{}

/// An APDU is that of one block at most, or of one fault: it determines the invoke byte, and the block or the number and the fault.
pub fn one_block()
    ensures block { OneBlock }
    ensures fault { OneFault }
    ensures apart { BlockIsNoFault }
{}
