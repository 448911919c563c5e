ghost use Rattle.std.specs.Prelude.{◌≡◌};
ghost use Rattle.ft_cli.specs.meaning.Exit.{exit_of};

use crate::ended::Ended;
use ft_base::NoMemory;

/// The status that the program exits with. Where there was no memory for the words or the files' names, nothing was called.
pub fn exit_of(called: Result<Ended, NoMemory>) -> u8
    ensures { result ≡ exit_of called }
{
    match called {
        Ok(ended) => ended.status,
        Err(NoMemory) => 7,
    }
}
