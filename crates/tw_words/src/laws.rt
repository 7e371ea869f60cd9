// Laws over the definitions alone.
ghost use Rattle.tw_words.specs.Commands.{EachWordNamesItsCommand};
ghost use Rattle.tw_words.specs.Places.{EachWordHasItsPlace};
ghost use Rattle.tw_words.specs.Unnamed.{ChangesWhereNamed};

/// The words of a line that was judged are refused at the first that names no task, whatever the task is that they change, and
/// else change it.
pub fn words_change_where_they_name_tasks()
    ensures { ChangesWhereNamed }
{}

/// Each command has a word of its own, which names it and no other.
pub fn each_word_names_its_command()
    ensures { EachWordNamesItsCommand }
{}

/// Each number that a refusal shows is the place of that word among the words given. The words given at the places of a line's words are
/// these words, the places rise, and each word given is one of the line's, an override, the command's word, or the first `--`.
pub fn words_have_their_places()
    ensures { EachWordHasItsPlace }
{}
