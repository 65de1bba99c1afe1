//! The texts after the options of `--help`: what a command reads and writes, and the faults.

/// What the help of the program as a whole, `geocom --help`, ends with.
pub const SCENES_AND_FAULTS: &str =
    "The simulated instrument of `exec`, `drill`, `loop`, `serve` and `rehearse` has the serial number 123456, the name GEOCOM SIM, and the targets
  target 0.5 1.5 25.125
  target 2.25 1.625 110.0625
  target 4.0 1.5 48.5
With --scene FILE the file describes it. A scene has one item a line; empty lines and lines that begin with # are ignored:
  serial N               the serial number; default 123456
  name TEXT              the name, at most 64 bytes; default GEOCOM SIM
  target HZ V DISTANCE   a target, at most 32: angles in radians, slope distance in metres
A scene may have rules, too:
  fault RPC RC [after COUNT] [for COUNT]   answers a procedure with this return code without executing it
  answer RPC RC[,PARAMS]                   the reply to a procedure that isn't in the table
  blocked TARGET FROM TO                   hides a target, counted from 1, during these measurements and searches
  drift TARGET HZ V D                      moves a target by these amounts at each of its measurements
  noise HZ V D SEED                        adds noise to measured values, at most these amounts
  repeats no                               keeps no reply: a repeated request is executed again
  behave faces|aims|takes|values           behaves as real instruments do in this respect
A scene for `serve` and `rehearse`, which have a clock, may also have:
  behave clock|real                        runs the instrument's clock; `real` means all five words
One for `serve` may also have:
  delay RPC MS                             sends the reply to a procedure MS milliseconds later, at most 3600000
  fault RPC restart [after COUNT] [for COUNT]   restarts the instrument, which sends a sign-on line and executes nothing
  busy queue, busy drop                    what arrives meanwhile waits in order (default), or gets no reply
One for `rehearse` may also have:
  behave busy-then-late RPC MS             answers a procedure at once with 13, busy, and sends its reply MS milliseconds later

Exit status: 0 on success, 1 after a fault, 2 for a command line that doesn't parse.

A fault is one line on standard error, `geocom: fault N`. For a place, a file, a station's text or a scene a second line gives the reason
(at a port of this machine only for `station`):
  41  a scene has more than 32 targets, 32 faults, 16 replies or 32 delays
  42  the input, the connection or the scene file could not be read
  43  the output or the connection could not be written: R complete lines were written, and B bytes of the next
  44  the limit on reads, or on a station's actions, was reached before the end of the input
  45  the other end closed the connection before a request was settled
  46  no further reply came over an open connection
  47  the clock could not be read, or is set before 1970
  48  a command of a cycle had no answer with quality `ok` or `warning` for as long as --stale allows
  49  a command of the setup was not answered well, and no try was left
  50  the text of `station` has no command of a cycle
  51  a line of the schedule, the commands or a scene doesn't parse: `line L` says which, counted from 1
  52  out of memory
  53  the schedule, the commands or a scene have more than 65536 bytes
  54  a port could not be bound, a name not resolved, a connection not made or accepted, or a device not opened
  55  the settlements, the records or this text could not be written
  56  standard input, output or error is closed: `station`, `ask` and `loop` did nothing
  57  the log could not be opened, is locked, or isn't a log
  58  the path of a device leads to something that isn't a terminal
  59  another program has locked the device
  60  no permission to read and write the device
  64  the file of records could not be opened for reading and appending, or isn't a regular file
  65  another program has locked the file of records
  66  the file of records has other content; it was not changed
  70  `rehearse`: a row is false: `seed S row R` says with which seed, and which row, counted from 1";

/// What the help of `exec` ends with.
pub const REQUESTS: &str =
    "Each request is a line that ends in CR LF, and so is each reply. Other lines get no reply.

Example:
  printf '%%R1Q,5003,2:\\r\\n' | geocom exec
writes
  %R1P,0,2:0,123456";

/// What the help of `check` ends with.
pub const VERDICTS: &str =
    "The bytes before each line feed are a frame. `check` prints a line for each: its number and what it is:
  N request RPC ok         a valid request
  N request RPC fault F    a request for an unknown procedure (21), or with parameters that don't parse (11 to 15)
  N reply RC_COM RC        a reply
  N fault F                neither a request nor a reply: F is its first bad field, 1 to 5
  N cleared                a line feed without a CR before it: an instrument discards the line
  N overlong               more than 512 bytes
The verdict on a line has `sign-on`, `CR alone` or `GSI` after it if an instrument signs on in it, if a CR without a line feed
ends a reply in it, or if it is measured data in GSI. Bytes after the last line feed are ignored.

With --log it prints a line for each line of a log written by `station --log`: the time, the mark, and what the bytes are. `>` was
sent and `<` received, as complete lines; `>|` and `<|` are `cleared` or `part`, since they didn't end in CR LF; `-` is the
connection. Any other line is reported as `no log line`. After a reply, `impossible` says that no outstanding request has its id, and
that it isn't a repeat of the one that settled something last: this line was altered, or that one.

Example:
  printf '%%R1Q,5003,2:\\r\\n%%R1P,0,2:0,123456\\r\\nnoise\\r\\n' | geocom check
writes
  1 request 5003 ok
  2 reply 0 0
  3 fault 1";

/// What the help of `drill` ends with.
pub const EVENTS: &str =
    "A schedule has one event a line; empty lines and lines that begin with # are ignored:
  send T D RPC PARAMS   sends a request for target T, with deadline D, for procedure RPC, with or without parameters
  up deliver            the first request on the line reaches the instrument
  up lose K             the request after K others on the line is lost
  up repeat K           the request after K others on the line is repeated
  down deliver, down lose K, down repeat K   the same for replies
  up bytes N, down bytes N   the next N bytes in that direction are delivered
  expire M              the time is M: requests with a deadline of M or earlier time out
  restart client, restart instrument

A send is refused while as many requests are outstanding as the width allows. A settlement is how a request ended: a line with
its number, its target, and `answered`, `late` or `lost`.

Example:
  printf 'send 1 10 5003\\nup deliver\\ndown deliver\\n' | geocom drill
writes
  0 1 answered %R1P,0,0:0,123456";

/// What the help of `serve` ends with.
pub const CONNECTIONS: &str =
    "Each connection gets a restarted instrument. Without --keep the first fault of a connection ends the program, and a silent
client is waited for.

With --keep each connection that ended early is reported on standard error, and the next one is served:
  geocom: connection 3: fault 42   a read failed; 43: a write failed; 54: accepting failed, and the next try follows a second later
  geocom: connection 4: idle       nothing came for as long as --idle allows";

/// What the help of `loop` and of `ask` ends with.
pub const COMMANDS: &str =
    "A command is a line `T RPC` or `T RPC PARAMS`: a request for target T and procedure RPC; empty lines and lines that
begin with # are ignored. Each is sent once the one before it is settled.

A settlement is how a request ended: a line with its number, its target, and `answered` or `lost`.

Example:
  printf '7 5003\\n8 2026\\n' | geocom loop
writes
  0 7 answered %R1P,0,0:0,123456
  1 8 answered %R1P,0,1:0,0";

/// What the help of `station` ends with.
pub const STATION: &str =
    "A command is a line `T RPC` or `T RPC PARAMS`: a request for target T and procedure RPC; empty lines and lines that
begin with # are ignored. `T raw RPC PARAMS` is a request for a procedure that isn't in the table, with its parameters exactly as
written: at most 16, and the request at most 512 bytes. The other lines say what a procedure takes, how the commands after them are
sent, what a target is called, and where it is:
  procedure RPC NAME KIND .. -> COLUMN KIND ..
                what a procedure that isn't in the table takes and answers: in the lines after it `T RPC PARAMS` requests it, and its
                values have these columns. KIND is Double, Long, Short, Byte, Boolean or String; with .. at the end an answer may
                have more values
                In place of a Double, {FILE SECONDS} takes the number of a file that another program keeps, read before each
                sending: where it was changed longer ago, or doesn't parse, neither the command nor its chain is sent
  deadline MS   1 to 86400000: how long each command after it waits for its reply
  T 5007 now    sets the clock of T to the time at which the request is sent: `sent` in its row, UTC, cut to seconds
  T expect RPC [PARAMS] = ITEMS
                a command whose answer has to have these values, one for each item, with commas between: * is any value, > a
                number greater than in the answer to it before, LOW..HIGH a number from LOW to HIGH, and anything else
                itself. Any other answer is reported as unexpected: nothing more is sent before the station has
                resynchronized and the setup was sent anew. `T expect raw RPC [PARAMS] = ITEMS` likewise
  chained       consecutive commands for one target form a chain: each but the first is sent once the one before it was answered
                well: with both codes 0 and values that parse, or with an accepted return code, and not off target, unexpected or
                in disagreement. Otherwise, or where the connection was closed meanwhile, the rest of the chain is skipped
  unchained     each command is sent by itself
  name T TEXT   1 to 64 bytes, for all rows of target T; the first is none of = + - @
  near T HZ V TOLERANCE [DISTANCE TOLERANCE]
                where target T is, in radians and metres, for all rows of T: a direction measured further away, in either
                angle, or a distance, is reported as off_target
  unwatched T   target T's commands don't count for --stale
  accept C C .. up to 16 return codes from 1 to 65535: an answer with one of them is a warning, and its chain goes on;
                accept alone: none
  busy C C ..   up to 16 return codes that say not yet: after an answer with one of them nothing is sent until its command's
                deadline has passed since, and the station has resynchronized; busy alone: none
  retry N W W ..
                where a command of a chain after it ends with one of these return codes or outcomes (unreadable, off_target,
                unexpected, disagree, late, lost, skipped), the whole chain is sent again, at most N times in a cycle, 1 to 9;
                retry 0: never
  agree HZ V D  each chain after it is sent twice in a cycle: the first sending's answers are unconfirmed, and one of the second
                is reported as disagree if a horizontal direction is further than HZ from the first's, another angle than V,
                both in radians, a length than D metres, or anything else differs; agree alone: sent once
  at start      the commands after it are the setup: they are sent before the first cycle, and again on each new connection and
                after each resynchronization, each once the one before it was answered well. Their rows have cycle 0
  each cycle    the commands after it are the cycle's, as without such a line
  every N cycles
                N 1 to 65535: the commands after it have their turn in cycles 1, N + 1, 2N + 1 and so on; in the others they are left
                out, without a row. Unless N is 1 they don't count for --stale

Where a command of the setup isn't answered well, the connection is closed, and after a pause the setup starts again on the next
one. This takes a try of --retries; all tries are available again once a command of a cycle is settled. Cycles are missed meanwhile.
In rows of the setup `attempt` counts how often it was started in this run; the counts leave these rows out.

Each command is sent once in each cycle, or in each attempt of its chain, and gets a line as it ends, which begins with the time:
  answered      its reply came before its deadline
  unreadable N  its reply came before its deadline, with both codes 0, but its values have fault N, 11 to 15
  late          its reply came after its deadline and was discarded
  lost          no reply came, and none will be taken
  skipped       it wasn't sent: the one before it in its chain wasn't answered well
  no_value      it wasn't sent: a file with a value that it takes is too old, or couldn't be read; counted as skipped
  missed        it wasn't sent: its cycle couldn't begin before the next was due
  off_target    its reply came before its deadline, with both codes 0 or an accepted one, but its direction isn't near where
                its target is, or its distance isn't the target's
  unexpected    the same, but its values aren't those that its line says (expect)
  disagree      the same, but its values don't agree with those of the chain's first sending (agree)

A request that timed out keeps its id and doesn't hold up others. The station reconnects where the connection ends or fails, and
where something is outstanding and no reply came for twice the longest deadline; ids continue. At the start, and once all that is
outstanding has timed out and there is no room for more (at six, or fewer after a reply that settled several), it resynchronizes:
eight null procedures are answered, one after the other, and then one more, before any command is sent.

With --at cycles are due by the clock: each time a cycle begins, the next one is due at the next moment that is so many seconds after a
whole multiple of --every, and the first one waits for such a moment, too. With --now somebody asks for a cycle between two others: it
begins at once, or as soon as the cycle that goes on is done, and the next one stays due when it was. The file is a regular file of at
most 64 bytes; one that was there before the first cycle asks for none.

In the names of --append and --log %Y, %m, %d and %H stand for the year, month, day and hour, UTC, and %% for a percent sign. Rows go on in
the file of the date, and so do lines.

With --append FILE each command gets a row in the file, as --csv writes it, after the file's complete rows. An incomplete last
line, which a crash may leave, is cut off and reported. A file that begins with something other than the header is refused and not
changed. With --columns a row also has a column for each quantity of its answer, such as hz_rad or serial, and for each new name
that a line `procedure` gives a value. With --json it is a JSON object, which has the items of a raw answer as a list; a file of
those is recognized by its first one.

At the start it reports on standard error how many commands it has, where, and what it waits for. While it measures it reports
there, each at most once a minute, since when there is no connection, no answer, or no quiet on the line, that it is connected
again (once something was answered), how many commands were skipped, and that a cycle is late. Where standard error is a terminal
and standard output isn't, it also keeps a line with the counts up to date. --silent turns all of this off.

Each answer is the reply to its own request, also with an instrument that keeps its last reply, on premises about the instrument,
the line and other clients, which no program can check: docs/GUARANTEE.md, in the package /usr/share/doc/geocom.

Example, beside `geocom serve 4001`:
  printf '7 5003\\n8 2026\\n' | geocom station 4001
writes two lines like
  2026-11-22T23:08:27.123Z 0 7 answered %R1P,0,0:0,123456
  2026-11-22T23:08:27.124Z 1 8 answered %R1P,0,1:0,0
and at the end, on standard error,
  answered 2 (refused 0) late 0 lost 0 skipped 0 unreadable 0 missed 0 off_target 0 unexpected 0 disagree 0 retried 0";

/// What the help of `rehearse` ends with.
pub const REHEARSAL: &str =
    "Standard input is the text of a station, as `geocom station --help` has it. The very station that `station` runs measures over a line
in memory, to the instrument of --scene, in simulated time: no clock is read and no connection made. Its rows are written on standard
output, with simulated times; at the end a summary on standard error: how commands ended, also for each target, how many cycles are
whole, with an answer of quality `ok` or `warning` for each command, how long cycles took, what happened to lines, and what each lost
line cost.

The file of --line says what happens, a word a line, each word once; `#` begins a comment. Without a word nothing of its kind happens:
  delay FROM TO   each line arrives that many milliseconds later, drawn uniformly, 0 to 86400000, in order
  lose P          P lines in a hundred are lost, 0 to 100, with at most three decimals
  repeat P        P in a hundred arrive twice, the copy directly behind
  hold P MS       at P in a hundred nothing passes for MS milliseconds, 0 to 86400000
  close P         at P in a hundred the connection ends, and what is in flight is lost or, at half of them, arrives later
  refuse P MS     after P of a hundred closes connections are refused for MS milliseconds
  restart P       at P in a hundred requests that arrive the instrument restarts before it executes them
  kill N          the station is killed N times a night, 0 to 1000, at random, and begins again at once as a new run

A run that ends with a fault begins again a minute later; one that isn't done when its night is over is cut off. Each row that says
that a reply came is compared with what the instrument executed: a false one ends the rehearsal with
  geocom: fault 70 seed S row R
and a line that says which it is; R counts rows from 1.

Example:
  printf 'delay 400 600\\nlose 2\\n' > bad.line
  printf '7 5003\\n' | geocom rehearse --nights 30 --line bad.line --seed 7 > rows";
