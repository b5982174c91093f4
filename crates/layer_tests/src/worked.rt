//! Worked runs of the replicated system, for every layer: after each frame the guard, the votes and the replicas.
//! This project's own.

/// Runs of the motor to the position 10 over several frames.
pub const MOTOR_RUNS: &str = "motor
: 0,sensor,cmd,10,,
: 0,cell,2,sum,-77,
: 4,end,,,,
guard yes vote 10
replica 0 up slot 1 cells 0 10 10 working yes
replica 1 up slot 1 cells 0 10 10 working yes
replica 2 up slot 1 cells 0 10 -77 working no
guard yes vote 10
replica 0 up slot 0 cells 5 10 10 working yes
replica 1 up slot 0 cells 5 10 10 working yes
replica 2 up slot 0 cells 5 10 -77 working no
guard yes vote 15
replica 0 up slot 1 cells 5 5 15 working yes
replica 1 up slot 1 cells 5 5 15 working yes
replica 2 up slot 1 cells 5 5 15 working no
guard yes vote 15
replica 0 up slot 0 cells 12 5 15 working yes
replica 1 up slot 0 cells 12 5 15 working yes
replica 2 up slot 0 cells 12 5 15 working yes

motor
: 0,sensor,cmd,10,,
: 0,cell,2,sum,-77,
: 0,slot,2,0,,
: 4,end,,,,
guard yes vote 10
replica 0 up slot 1 cells 0 10 10 working yes
replica 1 up slot 1 cells 0 10 10 working yes
replica 2 up slot 0 cells 0 10 -77 working no
guard yes vote 10
replica 0 up slot 0 cells 5 10 10 working yes
replica 1 up slot 0 cells 5 10 10 working yes
replica 2 up slot 0 cells 5 10 -67 working no
guard yes vote 15
replica 0 up slot 1 cells 5 5 15 working yes
replica 1 up slot 1 cells 5 5 15 working yes
replica 2 up slot 1 cells 5 5 15 working no
guard yes vote 15
replica 0 up slot 0 cells 12 5 15 working yes
replica 1 up slot 0 cells 12 5 15 working yes
replica 2 up slot 0 cells 12 5 15 working yes

motor
: 0,sensor,cmd,10,,
: 1,cell,2,err,999,
: 1,slot,2,1,,
: 5,end,,,,
guard yes vote 10
replica 0 up slot 1 cells 0 10 10 working yes
replica 1 up slot 1 cells 0 10 10 working yes
replica 2 up slot 1 cells 0 10 10 working yes
guard yes vote 10
replica 0 up slot 0 cells 5 10 10 working yes
replica 1 up slot 0 cells 5 10 10 working yes
replica 2 up slot 1 cells 5 999 10 working no
guard yes vote 15
replica 0 up slot 1 cells 5 5 15 working yes
replica 1 up slot 1 cells 5 5 15 working yes
replica 2 up slot 1 cells 10 999 15 working no
guard yes vote 15
replica 0 up slot 0 cells 12 5 15 working yes
replica 1 up slot 0 cells 12 5 15 working yes
replica 2 up slot 0 cells 12 999 15 working no
guard yes vote 13
replica 0 up slot 1 cells 12 -2 13 working yes
replica 1 up slot 1 cells 12 -2 13 working yes
replica 2 up slot 1 cells 12 -2 13 working yes

motor
: 0,sensor,cmd,10,,
: 1,down,0,,,
: 1,down,1,,,
: 3,end,,,,
guard yes vote 10
replica 0 up slot 1 cells 0 10 10 working yes
replica 1 up slot 1 cells 0 10 10 working yes
replica 2 up slot 1 cells 0 10 10 working yes
guard no vote none
replica 0 down slot 1 cells 0 10 10 working no
replica 1 down slot 1 cells 0 10 10 working no
replica 2 up slot 0 cells 5 10 10 working yes
guard no vote 10
replica 0 up slot 0 cells 5 10 10 working no
replica 1 up slot 0 cells 5 10 10 working no
replica 2 up slot 0 cells 5 5 15 working yes

motor
: 0,sensor,cmd,10,,
: 0,cell,2,sum,-77,
: 2,delay,0,2,10000,
: 4,end,,,,
guard yes vote 10
replica 0 up slot 1 cells 0 10 10 working yes
replica 1 up slot 1 cells 0 10 10 working yes
replica 2 up slot 1 cells 0 10 -77 working no
guard yes vote 10
replica 0 up slot 0 cells 5 10 10 working yes
replica 1 up slot 0 cells 5 10 10 working yes
replica 2 up slot 0 cells 5 10 -77 working no
guard no vote 15
replica 0 up slot 1 cells 5 5 15 working no
replica 1 up slot 1 cells 5 5 15 working yes
replica 2 up slot 1 cells 5 5 15 working no
guard no vote 15
replica 0 up slot 0 cells 12 5 15 working no
replica 1 up slot 0 cells 12 5 15 working yes
replica 2 up slot 0 cells 12 5 15 working yes

motor
: 0,sensor,cmd,10,,
: 0,cell,2,sum,-77,
: 2,delay,0,2,10001,
: 4,end,,,,
guard yes vote 10
replica 0 up slot 1 cells 0 10 10 working yes
replica 1 up slot 1 cells 0 10 10 working yes
replica 2 up slot 1 cells 0 10 -77 working no
guard yes vote 10
replica 0 up slot 0 cells 5 10 10 working yes
replica 1 up slot 0 cells 5 10 10 working yes
replica 2 up slot 0 cells 5 10 -77 working no
guard no vote 15
replica 0 up slot 1 cells 5 5 15 working no
replica 1 up slot 1 cells 5 5 15 working yes
replica 2 up slot 1 cells 5 5 -72 working no
guard no vote 15
replica 0 up slot 0 cells 12 5 15 working no
replica 1 up slot 0 cells 12 5 15 working yes
replica 2 up slot 0 cells 12 5 -72 working yes";

/// One frame of the motor: a replica that lies to another about a cell, about its slot, or whose message is dropped, and
/// commands that rows give.
pub const MOTOR_FRAMES: &str = "motor
: 0,sensor,cmd,10,,
: 0,lie,1,0,sum,55
: 1,end,,,,
guard yes vote 10
replica 0 up slot 1 cells 0 10 10 working yes
replica 1 up slot 1 cells 0 10 10 working no
replica 2 up slot 1 cells 0 10 10 working yes

motor
: 0,sensor,cmd,10,,
: 0,lieslot,1,0,1,
: 1,end,,,,
guard yes vote 10
replica 0 up slot 1 cells 0 10 10 working yes
replica 1 up slot 1 cells 0 10 10 working no
replica 2 up slot 1 cells 0 10 10 working yes

motor
: 0,sensor,cmd,10,,
: 0,drop,1,0,,
: 1,end,,,,
guard yes vote 10
replica 0 up slot 1 cells 0 10 10 working yes
replica 1 up slot 1 cells 0 10 10 working no
replica 2 up slot 1 cells 0 10 10 working yes

motor
: 0,sensor,cmd,10,,
: 0,down,1,,,
: 0,act,0,motor,7,
: 0,act,1,motor,7,
: 1,end,,,,
guard no vote 7
replica 0 up slot 1 cells 0 10 10 working no
replica 1 down slot 0 cells 0 0 0 working no
replica 2 up slot 1 cells 0 10 10 working yes";

/// Runs of the counter: a tie, a message that is heard in the next frame or in none, and votes by the median.
pub const COUNTER_RUNS: &str = "two counters
: 0,cell,1,n,5,
: 2,end,,,,
guard no vote 1
replica 0 up slot 0 cells 1 working yes
replica 1 up slot 0 cells 5 working no
guard no vote none
replica 0 up slot 0 cells 2 working yes
replica 1 up slot 0 cells 6 working yes

counter
: 0,delay,0,2,20000,
: 1,down,0,,,
: 1,lie,1,2,n,1
: 2,end,,,,
guard yes vote 1
replica 0 up slot 0 cells 1 working no
replica 1 up slot 0 cells 1 working yes
replica 2 up slot 0 cells 1 working yes
guard no vote none
replica 0 down slot 0 cells 1 working no
replica 1 up slot 0 cells 2 working no
replica 2 up slot 0 cells 1 working yes

counter
: 0,delay,0,2,19999,
: 1,down,0,,,
: 1,lie,1,2,n,1
: 2,end,,,,
guard yes vote 1
replica 0 up slot 0 cells 1 working no
replica 1 up slot 0 cells 1 working yes
replica 2 up slot 0 cells 1 working yes
guard no vote 2
replica 0 down slot 0 cells 1 working no
replica 1 up slot 0 cells 2 working no
replica 2 up slot 0 cells 2 working yes

two by the median
: 0,cell,1,n,5,
: 2,end,,,,
guard no vote 1
replica 0 up slot 0 cells 1 working yes
replica 1 up slot 0 cells 5 working no
guard no vote 2
replica 0 up slot 0 cells 2 working yes
replica 1 up slot 0 cells 2 working yes

three by the median
: 0,cell,0,n,4,
: 0,cell,1,n,8,
: 2,end,,,,
guard no vote 1
replica 0 up slot 0 cells 4 working no
replica 1 up slot 0 cells 8 working no
replica 2 up slot 0 cells 1 working yes
guard no vote 5
replica 0 up slot 0 cells 5 working yes
replica 1 up slot 0 cells 5 working yes
replica 2 up slot 0 cells 5 working yes";

/// What the replicas of the motor show before the first frame.
pub const START: &str = "motor
guard yes vote none
replica 0 up slot 0 cells 0 0 0 working yes
replica 1 up slot 0 cells 0 0 0 working yes
replica 2 up slot 0 cells 0 0 0 working yes
0 hears of 0 slot none cells none none none
0 hears of 1 slot none cells none none none
0 hears of 2 slot none cells none none none
0 takes slot none cells none none none commands none
1 hears of 0 slot none cells none none none
1 hears of 1 slot none cells none none none
1 hears of 2 slot none cells none none none
1 takes slot none cells none none none commands none
2 hears of 0 slot none cells none none none
2 hears of 1 slot none cells none none none
2 hears of 2 slot none cells none none none
2 takes slot none cells none none none commands none";

/// What each replica of the motor heard in the first frame, what it voted and commands. A lie adds a value that the message has
/// not, another names a wrong slot; and a replica that is down hears nothing and is not heard, but commands by a row.
pub const MOTOR_VOTES: &str = "motor
: 0,sensor,cmd,10,,
: 0,lie,2,1,err,7
: 0,lieslot,2,0,1,
: 1,end,,,,
0 hears of 0 slot 0 cells none none 10
0 hears of 1 slot 0 cells none none 10
0 hears of 2 slot 1 cells none none 10
0 takes slot 0 cells 0 10 10 commands 10
1 hears of 0 slot 0 cells none none 10
1 hears of 1 slot 0 cells none none 10
1 hears of 2 slot 0 cells none 7 10
1 takes slot 0 cells 0 10 10 commands 10
2 hears of 0 slot 0 cells none none 10
2 hears of 1 slot 0 cells none none 10
2 hears of 2 slot 0 cells none none 10
2 takes slot 0 cells 0 10 10 commands 10

motor
: 0,sensor,cmd,10,,
: 0,down,0,,,
: 0,drop,2,1,,
: 0,act,0,motor,7,
: 1,end,,,,
0 hears of 0 slot none cells none none none
0 hears of 1 slot none cells none none none
0 hears of 2 slot none cells none none none
0 takes slot none cells none none none commands 7
1 hears of 0 slot none cells none none none
1 hears of 1 slot 0 cells none none 10
1 hears of 2 slot none cells none none none
1 takes slot 0 cells 0 10 10 commands 10
2 hears of 0 slot none cells none none none
2 hears of 1 slot 0 cells none none 10
2 hears of 2 slot 0 cells none none 10
2 takes slot 0 cells 0 10 10 commands 10";
