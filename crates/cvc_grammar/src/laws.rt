// What certificates and requests, their readers and their writers have to do with each other. Each law is the contract
// of a function that does nothing.
ghost use Rattle.cvc_grammar.specs.Laws.{OneText, OneCert, ReadAfterWrite, WriteAfterRead};
ghost use Rattle.cvc_grammar.specs.RequestLaws as requests;

/// A legal certificate has one text, and a text is of one certificate.
pub fn one_text()
    ensures text { OneText }
    ensures cert { OneCert }
{}

/// What is read of a written certificate is that certificate.
pub fn read_after_write()
    ensures { ReadAfterWrite }
{}

/// What is written of a certificate that was read are the bytes it was read from.
pub fn write_after_read()
    ensures { WriteAfterRead }
{}

/// The same of requests: one text, and one request of a text.
pub fn one_request_text()
    ensures text { requests.OneText }
    ensures request { requests.OneRequest }
{}

/// What is read of a written request is that request.
pub fn read_after_write_of_requests()
    ensures { requests.ReadAfterWrite }
{}

/// What is written of a request that was read are the bytes it was read from.
pub fn write_after_read_of_requests()
    ensures { requests.WriteAfterRead }
{}
