// Laws of the log of a journal, each the contract of a function that does nothing.
ghost use Rattle.std.specs.Prelude.{◌≡◌, ℕ, Bool, List, []};
ghost use Rattle.o2_model.specs.Logs.{Transaction, no_writes, read_log};
ghost use Rattle.o2_model.specs.LogGrammar.{Spell};

/// A law: the transactions that are read of a log's blocks are those that the blocks spell, and all of them.
pub fn log_is_what_its_blocks_spell()
    ensures read { (wide : Bool) (sequence : ℕ) (ts : List Transaction) (blocks : List (List ℕ)) → read_log wide sequence no_writes [] blocks ≡ ts → Spell wide sequence ts blocks }
    ensures spelled { (wide : Bool) (sequence : ℕ) (ts : List Transaction) (blocks : List (List ℕ)) → Spell wide sequence ts blocks → read_log wide sequence no_writes [] blocks ≡ ts }
{}
