ghost use Rattle.gs_respond.specs.TimeLaws.{RequestsAsk, RequestsHaveOneSpelling, AnswersTell, AnswersDiffer};

/// The law of time requests: exactly the bytes of a request ask, each with its number; an answer tells
/// the node, the asker's number and the clock, so that no two answers have the same bytes.
pub fn time_requests()
    ensures requests_ask { RequestsAsk }
    ensures one_spelling { RequestsHaveOneSpelling }
    ensures answers_tell { AnswersTell }
    ensures answers_differ { AnswersDiffer }
{}
