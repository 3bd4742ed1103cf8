//! The law of the limits.
ghost use Rattle.std.specs.Prelude.{◌≡◌};
ghost use Rattle.he_stream.specs.Limits.{most_reads, most_writes, read_size};
ghost use Rattle.he_stream.specs.declared.limits.TheConstants.{MOST_READS, MOST_WRITES, READ_SIZE};

/// The loop bounds and the room for a read are the numbers of the definitions.
pub fn limits_are_the_numbers()
    ensures reads { MOST_READS ≡ most_reads }
    ensures writes { MOST_WRITES ≡ most_writes }
    ensures room { READ_SIZE ≡ read_size }
{}
