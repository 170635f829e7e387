//! Laws of command lines, over the definitions that the contract of [`crate::read_request`] cites.
ghost use Rattle.sq_words.specs.Requests.{AcceptedWordsAsk, OneRequest, RefusedWordsAskNothing};

/// Words ask for at most one thing: two readings of them are the same command with the same values.
pub fn one_request()
    ensures { OneRequest }
{}

/// Words in which clap finds no error ask for one of the commands, with all the values that it needs.
pub fn accepted_words_ask()
    ensures { AcceptedWordsAsk }
{}

/// Words in which clap finds an error, or that ask for its help, ask for no command. So the program either runs a
/// command or reports clap's text.
pub fn refused_words_ask_nothing()
    ensures { RefusedWordsAskNothing }
{}
