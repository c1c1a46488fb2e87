// The room for a text that is formatted under the default policy (document 02, vii): five halves of its length. `default_room` equals
// `default_room` of specs/Room.antt. That every formatted text has room in it is FiveHalves of specs/Theorems.antt.
#![tactic(auto)]

ghost use Rattle.std.specs.Prelude.{◌≡◌};
ghost use Rattle.base.specs.Sums.{capped};
ghost use Rattle.room.specs.Room.{default_room};

use base::add_count;

// Five halves of a length, or the largest number if they are greater.
pub fn default_room(len: usize) -> usize
    ensures { result ≡ capped (default_room len) }
{
    let twice = add_count(len, len);
    add_count(twice, len / 2)
}
