//! Laws of the console core over its definitions alone. They cost nothing when they run.
ghost use Rattle.sacn_console.specs.Runs.{PacketsAreNumbered, StepsAreTheList};
ghost use Rattle.sacn_console.specs.PageCounts.{PagesAreCounted};
ghost use Rattle.sacn_console.specs.Least.{LeastGoesFirst};
ghost use Rattle.sacn_console.specs.Rhythm.{AnEndIsThreeTerminations, NoneWaitsTooLong, PacketsKeepTheirGap};
ghost use Rattle.std.specs.Prelude.{◌≡◌};
ghost use Rattle.sacn_console.specs.declared.limits.TheConstants.{CONSOLE_UNIVERSES, DEFAULT_PRIORITY, DISCOVERY_INTERVAL, KEEP_ALIVE, MIN_GAP, MAX_DESTINATIONS, MAX_DATAGRAM, NEWEST_SHOW, REPEATS, TERMINATIONS};

use sacn_cues::laws::{readings_show_the_levels, steps_follow_the_calls};

/// Over any list of commands and polls from the start of a life, the core's steps answer what the
/// list of earlier accepted commands and of the datagrams given alone says.
pub fn steps_are_the_list()
    ensures { StepsAreTheList }
{
    readings_show_the_levels();
    steps_follow_the_calls();
}

/// The packets of a life on a universe are numbered from the first number on, one by one, modulo 256.
pub fn packets_are_numbered()
    ensures { PacketsAreNumbered }
{}

/// Which discovery page comes next follows from counting: its number is how many pages were given
/// since the latest cycle's first one, until the cycle's list has no more (E1.31, 8).
pub fn pages_are_counted()
    ensures { PagesAreCounted }
{}

/// Where the universes of a life strictly ascend, as they do in each console, a packet that is due
/// is that of the least-numbered due universe.
pub fn least_goes_first()
    ensures { LeastGoesFirst }
{}

/// Over any list of commands and polls each packet on a universe comes 25 ms or more after the one before it.
pub fn packets_keep_their_gap()
    ensures { PacketsKeepTheirGap }
{}

/// Where a poll gives nothing, each universe that runs was sent less than 900 ms before, and each that ends
/// less than 25 ms before: who polls until nothing is given lets no universe wait for its packet.
pub fn none_waits_too_long()
    ensures { NoneWaitsTooLong }
{}

/// Over any list of commands and polls a universe that was ended is sent three terminations at most (E1.31, 6.2.6),
/// and nothing else until it is started again; of one that runs no packet is a termination.
pub fn an_end_is_three_terminations()
    ensures { AnEndIsThreeTerminations }
{}

/// What the numbers of a console and of its shows are, times in milliseconds.
pub fn numbers()
    ensures universes { CONSOLE_UNIVERSES ≡ 1024 }
    ensures gap { MIN_GAP ≡ 25 }
    ensures keep_alive { KEEP_ALIVE ≡ 900 }
    ensures repeats { REPEATS ≡ 3 }
    ensures terminations { TERMINATIONS ≡ 3 }
    ensures discovery { DISCOVERY_INTERVAL ≡ 10000 }
    ensures destinations { MAX_DESTINATIONS ≡ 8 }
    ensures priority { DEFAULT_PRIORITY ≡ 100 }
    ensures octets { MAX_DATAGRAM ≡ 1144 }
    ensures version { NEWEST_SHOW ≡ 2 }
{}
