// A law of requests. The function does nothing and promises its law.
ghost use Rattle.text_base.specs.Requests.{ValidLaw};

/// A request is valid exactly where it has no bad part.
pub fn valid_law()
    ensures { ValidLaw }
{}
