// What the planner is asked to do.
ghost use Rattle.std.specs.Prelude.{[], ◌∷◌, map, string_bytes, codes};
ghost use Rattle.planner.specs.Commands.{Writes, Found, Asks};

#[derive(Drop)]
pub enum Command<'a> {
    // Say what the planner does.
    Help,
    // Pair the roster on standard input.
    Input,
    // Pair the roster in a file.
    File { path: &'a str },
    // Pair a ring; its three numbers are not known to fit yet, so they are no `Ring`.
    Ring { size: u16, crews: u16, sites: u16 },
}

// The number that a word writes, if any.
fn number(word: &str) -> Option<u16>
    ensures { Found result (Writes word.now) }
{
    word.parse::<u16>().ok()
}

impl Command<'_> {
    // What the words after the program's name ask for, if anything.
    pub fn of(words: &[String]) -> Option<Command<'_>>
        ensures { Found result (Asks (map string_bytes words.now)) }
    {
        match words {
            [] => Some(Command::Input),
            [word] => Command::of_word(word.as_str()),
            [word, size, crews, sites] if word.as_str() == "--ring" => Command::of_ring(
                size.as_str(),
                crews.as_str(),
                sites.as_str(),
            ),
            _ => None,
        }
    }

    // What one word asks for.
    fn of_word(word: &str) -> Option<Command<'_>>
        ensures { Found result (Asks (word.now ∷ [])) }
    {
        if word == "--help" {
            Some(Command::Help)
        } else if word.starts_with("--") {
            None
        } else {
            Some(Command::File { path: word })
        }
    }

    // The ring of three words.
    fn of_ring<'a>(size: &'a str, crews: &'a str, sites: &'a str) -> Option<Command<'a>>
        ensures { Found result (Asks (codes "--ring" ∷ size.now ∷ crews.now ∷ sites.now ∷ [])) }
    {
        Some(Command::Ring {
            size: number(size)?,
            crews: number(crews)?,
            sites: number(sites)?,
        })
    }
}
