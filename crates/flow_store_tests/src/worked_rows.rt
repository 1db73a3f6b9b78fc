//! The lines of the worked rows, each with a question for what its runs have come to. `tests/rows` has their replies.

/// Each is driven over a store of its own.
pub const ROWS: &[&[u8]] = &[
    // A report, after which the run ends.
    br#"{"do":"register","src":"workflow a(n: int) { activity c(int, text) -> int; let r = 0; r = call c(n, \"eur\"); return r + 1; }"}
{"args":[7],"at":1000,"do":"start","flow":"f","req":"q1","text":1}
{"at":1500,"attempt":1,"do":"complete","event":2,"run":1,"value":41}
{"do":"history","run":1}
"#,
    // Nothing to do.
    br#"{"do":"register","src":"workflow e() {}"}
{"args":[],"at":0,"do":"start","flow":"f","req":"q1","text":1}
{"do":"history","run":1}
"#,
    // A report that comes twice.
    br#"{"do":"register","src":"workflow a(n: int) { activity c(int, text) -> int; let r = 0; r = call c(n, \"eur\"); return r + 1; }"}
{"args":[7],"at":1000,"do":"start","flow":"f","req":"q1","text":1}
{"at":1500,"attempt":1,"do":"complete","event":2,"run":1,"value":41}
{"at":1500,"attempt":1,"do":"complete","event":2,"run":1,"value":41}
{"do":"history","run":1}
"#,
    // A report of another kind than the activity gives.
    br#"{"do":"register","src":"workflow a(n: int) { activity c(int, text) -> int; let r = 0; r = call c(n, \"eur\"); return r + 1; }"}
{"args":[7],"at":1000,"do":"start","flow":"f","req":"q1","text":1}
{"at":1500,"attempt":1,"do":"complete","event":2,"run":1,"value":"41"}
{"do":"history","run":1}
"#,
    // A sum above the largest number.
    br#"{"do":"register","src":"workflow a(n: int) { activity c(int, text) -> int; let r = 0; r = call c(n, \"eur\"); return r + 1; }"}
{"args":[7],"at":1000,"do":"start","flow":"f","req":"q1","text":1}
{"at":1500,"attempt":1,"do":"complete","event":2,"run":1,"value":9223372036854775807}
{"do":"history","run":1}
"#,
    // The moment as an argument, and a sleep.
    br#"{"do":"register","src":"workflow w(n: int) { activity c(int) -> int; let r = 0; r = call c(now) retry 3 every 1000; sleep r * n; return r; }"}
{"args":[7],"at":1000,"do":"start","flow":"f","req":"q1","text":1}
{"at":1500,"attempt":1,"do":"complete","event":2,"run":1,"value":500}
{"do":"history","run":1}
"#,
    // A run that goes on as a new one.
    br#"{"do":"register","src":"workflow w(n: int) { activity c(int) -> int; let r = 0; r = call c(n); continue as new(r + n); }"}
{"args":[7],"at":1000,"do":"start","flow":"f","req":"q1","text":1}
{"at":1500,"attempt":1,"do":"complete","event":2,"run":1,"value":500}
{"do":"history","run":1}
"#,
    // A report to a run that waits for a signal.
    br#"{"do":"register","src":"workflow w(n: int) { signal s: text; let t = \"\"; t = wait signal s; return t; }"}
{"args":[7],"at":1000,"do":"start","flow":"f","req":"q1","text":1}
{"at":1500,"attempt":1,"do":"complete","event":2,"run":1,"value":500}
{"do":"history","run":1}
"#,
    // Branches side by side, reported in another order than they were begun.
    br#"{"do":"register","src":"workflow c() { activity f(int) -> int; let x = 0; let y = 0; parallel { { x = call f(1); } { y = call f(2); y = call f(3); } } return x + y; }"}
{"args":[],"at":0,"do":"start","flow":"f","req":"q1","text":1}
{"at":1,"attempt":1,"do":"complete","event":3,"run":1,"value":20}
{"at":2,"attempt":1,"do":"complete","event":2,"run":1,"value":10}
{"at":3,"attempt":1,"do":"complete","event":5,"run":1,"value":30}
{"do":"history","run":1}
"#,
    // A loop.
    br#"{"do":"register","src":"workflow s(n: int) { activity f(int) -> int; let i = 0; let t = 0; let g = 0; while i < n { g = call f(i); t = t + g; i = i + 1; } return t; }"}
{"args":[2],"at":0,"do":"start","flow":"f","req":"q1","text":1}
{"at":1,"attempt":1,"do":"complete","event":2,"run":1,"value":7}
{"at":2,"attempt":1,"do":"complete","event":4,"run":1,"value":8}
{"do":"history","run":1}
"#,
    // A report to a timer.
    br#"{"do":"register","src":"workflow b() { signal s: text; let v = \"\"; v = wait signal s for 100 else { v = \"late\"; }; return v; }"}
{"args":[],"at":1000,"do":"start","flow":"f","req":"q1","text":1}
{"at":1050,"attempt":1,"do":"complete","event":2,"run":1,"value":1}
{"do":"history","run":1}
"#,
    // A patch in a new run.
    br#"{"do":"register","src":"workflow d() { activity p(text) -> int; let r = 0; patch \"v2\" { r = call p(\"usd\"); } else { r = call p(\"eur\"); } return r; }"}
{"args":[],"at":0,"do":"start","flow":"f","req":"q1","text":1}
{"at":1,"attempt":1,"do":"complete","event":3,"run":1,"value":5}
{"do":"history","run":1}
"#,
    // A run that is ended before its report comes, and once more after it.
    br#"{"do":"register","src":"workflow a(n: int) { activity c(int, text) -> int; let r = 0; r = call c(n, \"eur\"); return r + 1; }"}
{"args":[7],"at":1000,"do":"start","flow":"f","req":"q1","text":1}
{"at":900,"do":"terminate","reason":"why","run":1}
{"at":1500,"attempt":1,"do":"complete","event":2,"run":1,"value":41}
{"at":1500,"do":"terminate","reason":"again","run":1}
{"do":"history","run":1}
"#,
    // A signal that comes before it's awaited.
    br#"{"do":"register","src":"workflow g() { activity f(int) -> int; signal s: text; let x = 0; let v = \"\"; x = call f(1); v = wait signal s for 100 else { v = \"late\"; }; return v; }"}
{"args":[],"at":0,"do":"start","flow":"f","req":"q1","text":1}
{"at":5,"do":"signal","flow":"f","name":"s","req":"q2","value":"hi"}
{"at":9,"attempt":1,"do":"complete","event":2,"run":1,"value":1}
{"do":"history","run":1}
"#,
    // A signal in the last moment.
    br#"{"do":"register","src":"workflow b() { signal s: text; let v = \"\"; v = wait signal s for 100 else { v = \"late\"; }; return v; }"}
{"args":[],"at":1000,"do":"start","flow":"f","req":"q1","text":1}
{"at":1100,"do":"signal","flow":"f","name":"s","req":"q2","value":"x"}
{"at":1100,"do":"tick"}
{"do":"history","run":1}
"#,
    // A signal that is late.
    br#"{"do":"register","src":"workflow b() { signal s: text; let v = \"\"; v = wait signal s for 100 else { v = \"late\"; }; return v; }"}
{"args":[],"at":1000,"do":"start","flow":"f","req":"q1","text":1}
{"at":1099,"do":"tick"}
{"at":1100,"do":"tick"}
{"at":1100,"do":"signal","flow":"f","name":"s","req":"q2","value":"x"}
{"do":"history","run":1}
"#,
    // A signal that the text doesn't have, and one of another kind.
    br#"{"do":"register","src":"workflow b() { signal s: text; let v = \"\"; v = wait signal s for 100 else { v = \"late\"; }; return v; }"}
{"args":[],"at":1000,"do":"start","flow":"f","req":"q1","text":1}
{"at":1050,"do":"signal","flow":"f","name":"z","req":"q2","value":"x"}
{"at":1050,"do":"signal","flow":"f","name":"s","req":"q2","value":1}
{"do":"history","run":1}
"#,
    // A start and a signal that come twice.
    br#"{"do":"register","src":"workflow b() { signal s: text; let v = \"\"; v = wait signal s for 100 else { v = \"late\"; }; return v; }"}
{"args":[],"at":1000,"do":"start","flow":"f","req":"q1","text":1}
{"at":1050,"do":"signal","flow":"f","name":"s","req":"q2","value":"x"}
{"args":[],"at":1000,"do":"start","flow":"f","req":"q1","text":1}
{"at":1050,"do":"signal","flow":"f","name":"s","req":"q2","value":"x"}
{"do":"history","run":1}
"#,
    // Two branches that wait for the same signal.
    br#"{"do":"register","src":"workflow q() { signal s: int; let x = 0; let y = 0; parallel { { x = wait signal s; } { y = wait signal s; } } return x - y; }"}
{"args":[],"at":0,"do":"start","flow":"f","req":"q1","text":1}
{"at":1,"do":"signal","flow":"f","name":"s","req":"q2","value":5}
{"at":2,"do":"signal","flow":"f","name":"s","req":"q3","value":3}
{"do":"history","run":1}
"#,
    // Two timers that are due at once.
    br#"{"do":"register","src":"workflow t(d: int) { sleep d; return now; }"}
{"args":[90],"at":10,"do":"start","flow":"f","req":"q1","text":1}
{"args":[100],"at":0,"do":"start","flow":"g","req":"q2","text":1}
{"at":100,"do":"tick"}
{"do":"history","run":1}
{"do":"history","run":2}
"#,
    // More timers due at once than a tick fires.
    br#"{"do":"register","src":"workflow t(d: int) { sleep d; return now; }"}
{"args":[100],"at":0,"do":"start","flow":"f1","req":"q1","text":1}
{"args":[100],"at":0,"do":"start","flow":"f2","req":"q2","text":1}
{"args":[100],"at":0,"do":"start","flow":"f3","req":"q3","text":1}
{"args":[100],"at":0,"do":"start","flow":"f4","req":"q4","text":1}
{"args":[100],"at":0,"do":"start","flow":"f5","req":"q5","text":1}
{"args":[100],"at":0,"do":"start","flow":"f6","req":"q6","text":1}
{"args":[100],"at":0,"do":"start","flow":"f7","req":"q7","text":1}
{"args":[100],"at":0,"do":"start","flow":"f8","req":"q8","text":1}
{"args":[100],"at":0,"do":"start","flow":"f9","req":"q9","text":1}
{"args":[100],"at":0,"do":"start","flow":"f10","req":"q10","text":1}
{"args":[100],"at":0,"do":"start","flow":"f11","req":"q11","text":1}
{"args":[100],"at":0,"do":"start","flow":"f12","req":"q12","text":1}
{"args":[100],"at":0,"do":"start","flow":"f13","req":"q13","text":1}
{"args":[100],"at":0,"do":"start","flow":"f14","req":"q14","text":1}
{"args":[100],"at":0,"do":"start","flow":"f15","req":"q15","text":1}
{"args":[100],"at":0,"do":"start","flow":"f16","req":"q16","text":1}
{"args":[100],"at":0,"do":"start","flow":"f17","req":"q17","text":1}
{"args":[100],"at":0,"do":"start","flow":"f18","req":"q18","text":1}
{"args":[100],"at":0,"do":"start","flow":"f19","req":"q19","text":1}
{"args":[100],"at":0,"do":"start","flow":"f20","req":"q20","text":1}
{"args":[100],"at":0,"do":"start","flow":"f21","req":"q21","text":1}
{"args":[100],"at":0,"do":"start","flow":"f22","req":"q22","text":1}
{"args":[100],"at":0,"do":"start","flow":"f23","req":"q23","text":1}
{"args":[100],"at":0,"do":"start","flow":"f24","req":"q24","text":1}
{"args":[100],"at":0,"do":"start","flow":"f25","req":"q25","text":1}
{"args":[100],"at":0,"do":"start","flow":"f26","req":"q26","text":1}
{"args":[100],"at":0,"do":"start","flow":"f27","req":"q27","text":1}
{"args":[100],"at":0,"do":"start","flow":"f28","req":"q28","text":1}
{"args":[100],"at":0,"do":"start","flow":"f29","req":"q29","text":1}
{"args":[100],"at":0,"do":"start","flow":"f30","req":"q30","text":1}
{"args":[100],"at":0,"do":"start","flow":"f31","req":"q31","text":1}
{"args":[100],"at":0,"do":"start","flow":"f32","req":"q32","text":1}
{"args":[50],"at":0,"do":"start","flow":"f33","req":"q33","text":1}
{"at":100,"do":"tick"}
{"do":"describe","run":31}
{"do":"describe","run":32}
{"do":"describe","run":33}
{"at":100,"do":"tick"}
{"do":"history","run":31}
{"do":"history","run":32}
{"do":"history","run":33}
"#,
    // Delays that no timer has.
    br#"{"do":"register","src":"workflow t(d: int) { sleep d; return now; }"}
{"args":[-1],"at":0,"do":"start","flow":"f","req":"q1","text":1}
{"args":[1000000000000000],"at":1,"do":"start","flow":"g","req":"q2","text":1}
{"do":"history","run":1}
{"do":"history","run":2}
"#,
    // A timer of a run that was ended.
    br#"{"do":"register","src":"workflow t(d: int) { sleep d; return now; }"}
{"args":[100],"at":0,"do":"start","flow":"f","req":"q1","text":1}
{"at":50,"do":"terminate","reason":"x","run":1}
{"at":100,"do":"tick"}
{"do":"history","run":1}
"#,
    // A report from before the start.
    br#"{"do":"register","src":"workflow a(n: int) { activity c(int, text) -> int; let r = 0; r = call c(n, \"eur\"); return r + 1; }"}
{"args":[7],"at":1000,"do":"start","flow":"f","req":"q1","text":1}
{"at":500,"attempt":1,"do":"complete","event":2,"run":1,"value":41}
{"do":"history","run":1}
"#,
    // A loop of as many rounds as a turn may have, and of one more.
    br#"{"do":"register","src":"workflow l(n: int) { let i = 0; while i < n { i = i + 1; } return i; }"}
{"args":[9999],"at":0,"do":"start","flow":"f","req":"q1","text":1}
{"args":[10000],"at":0,"do":"start","flow":"g","req":"q2","text":1}
{"do":"history","run":1}
{"do":"history","run":2}
"#,
    // A run that goes over to a text with a patch, and a new run of that text.
    br#"{"do":"register","src":"workflow d() { activity p(text) -> int; let r = 0; r = call p(\"eur\"); return r; }"}
{"do":"register","src":"workflow d() { activity p(text) -> int; let r = 0; patch \"v2\" { r = call p(\"usd\"); } else { r = call p(\"eur\"); } return r; }"}
{"args":[],"at":0,"do":"start","flow":"f","req":"q1","text":1}
{"do":"upgrade","run":1,"text":2}
{"at":1,"attempt":1,"do":"complete","event":2,"run":1,"value":5}
{"args":[],"at":0,"do":"start","flow":"g","req":"q2","text":2}
{"do":"history","run":1}
{"do":"history","run":2}
"#,
    // A run that can't go over to a text.
    br#"{"do":"register","src":"workflow d() { activity p(text) -> int; let r = 0; r = call p(\"eur\"); return r; }"}
{"do":"register","src":"workflow d() { activity p(text) -> int; let r = 0; r = call p(\"usd\"); return r; }"}
{"args":[],"at":0,"do":"start","flow":"f","req":"q1","text":1}
{"do":"upgrade","run":1,"text":2}
{"do":"describe","run":1}
{"do":"upgrade","run":1,"text":3}
{"do":"upgrade","run":2,"text":1}
{"do":"history","run":1}
"#,
    // A run that goes on as new without a wait.
    br#"{"do":"register","src":"workflow k(n: int) { continue as new(n + 1); }"}
{"args":[0],"at":0,"do":"start","flow":"f","req":"q1","text":1}
{"do":"history","run":1}
"#,
    // A run that goes on as new after each timer.
    br#"{"do":"register","src":"workflow m(n: int) { sleep 10; continue as new(n + 1); }"}
{"args":[0],"at":0,"do":"start","flow":"f","req":"q1","text":1}
{"at":10,"do":"tick"}
{"do":"describe","run":2}
{"do":"history","run":1}
{"do":"history","run":2}
"#,
    // The same, where the run has gone over to a text with a patch.
    br#"{"do":"register","src":"workflow m(n: int) { sleep 10; continue as new(n + 1); }"}
{"do":"register","src":"workflow m(n: int) { patch \"p\" { sleep 20; } else { sleep 10; } continue as new(n + 1); }"}
{"args":[0],"at":0,"do":"start","flow":"f","req":"q1","text":1}
{"do":"upgrade","run":1,"text":2}
{"at":10,"do":"tick"}
{"do":"describe","run":2}
{"do":"history","run":1}
{"do":"history","run":2}
"#,
    // Reports of failures, up to the last try.
    br#"{"do":"register","src":"workflow a(n: int) { activity c(int, text) -> int; let r = 0; r = call c(n, \"eur\") retry 3 every 500; return r + 1; }"}
{"args":[7],"at":1000,"do":"start","flow":"f","req":"q1","text":1}
{"at":2000,"attempt":1,"do":"fail","event":2,"reason":"no","run":1}
{"at":1500,"attempt":1,"do":"complete","event":2,"run":1,"value":41}
{"at":3000,"attempt":2,"do":"fail","event":2,"reason":"no","run":1}
{"at":4000,"attempt":3,"do":"fail","event":2,"reason":"no","run":1}
{"at":4000,"attempt":3,"do":"fail","event":2,"reason":"no","run":1}
{"do":"history","run":1}
"#,
    // As many waits as a run may have.
    b"{\"do\":\"register\",\"src\":\"workflow p() { parallel { { parallel { { sleep 5; } { sleep 5; } { sleep 5; } { sleep 5; \
} { sleep 5; } { sleep 5; } { sleep 5; } { sleep 5; } } } { parallel { { sleep 5; } { sleep 5; } { sleep 5; } { sleep \
5; } { sleep 5; } { sleep 5; } { sleep 5; } { sleep 5; } } } { parallel { { sleep 5; } { sleep 5; } { sleep 5; } { \
sleep 5; } { sleep 5; } { sleep 5; } { sleep 5; } { sleep 5; } } } { parallel { { sleep 5; } { sleep 5; } { sleep 5; } \
{ sleep 5; } { sleep 5; } { sleep 5; } { sleep 5; } { sleep 5; } } } } }\"}
{\"args\":[],\"at\":0,\"do\":\"start\",\"flow\":\"f\",\"req\":\"q1\",\"text\":1}
{\"do\":\"describe\",\"run\":1}
{\"do\":\"history\",\"run\":1}
",
    // More waits than a run may have.
    b"{\"do\":\"register\",\"src\":\"workflow p() { parallel { { parallel { { sleep 5; } { sleep 5; } { sleep 5; } { sleep 5; \
} { sleep 5; } { sleep 5; } { sleep 5; } } } { parallel { { sleep 5; } { sleep 5; } { sleep 5; } { sleep 5; } { sleep \
5; } { sleep 5; } { sleep 5; } } } { parallel { { sleep 5; } { sleep 5; } { sleep 5; } { sleep 5; } { sleep 5; } { \
sleep 5; } { sleep 5; } } } { parallel { { sleep 5; } { sleep 5; } { sleep 5; } { sleep 5; } { sleep 5; } { sleep 5; } \
{ sleep 5; } } } { parallel { { sleep 5; } { sleep 5; } { sleep 5; } { sleep 5; } { sleep 5; } { sleep 5; } { sleep 5; \
} } } } }\"}
{\"args\":[],\"at\":0,\"do\":\"start\",\"flow\":\"f\",\"req\":\"q1\",\"text\":1}
{\"do\":\"describe\",\"run\":1}
{\"do\":\"history\",\"run\":1}
",
    // As many arguments as a start never has.
    b"{\"do\":\"register\",\"src\":\"workflow a(n: int) { activity c(int, text) -> int; let r = 0; r = call c(n, \
\\\"eur\\\"); return r + 1; }\"}
{\"args\":[7],\"at\":1000,\"do\":\"start\",\"flow\":\"f\",\"req\":\"q1\",\"text\":1}
{\"args\":[0,0,0,0,0,0,0,0,0,0,0,0,0,0,0,0,0,0,0,0,0,0,0,0,0,0,0,0,0,0,0,0,0,0,0,0,0,0,0,0,0,0,0,0,0,0,0,0,0,0,0,0,0,0,\
0,0,0,0,0,0,0,0,0,0,0,0,0,0,0,0,0,0,0,0,0,0,0,0,0,0,0,0,0,0,0,0,0,0,0,0,0,0,0,0,0,0,0,0,0,0,0,0,0,0,0,0,0,0,0,0,0,0,0,0,\
0,0,0,0,0,0,0,0,0,0,0,0,0,0,0,0,0,0,0,0,0,0,0,0,0,0,0,0,0,0,0,0,0,0,0,0,0,0,0,0,0,0,0,0,0,0,0,0,0,0,0,0,0,0,0,0,0,0,0,0,\
0,0,0,0,0,0,0,0,0,0,0,0,0,0,0,0,0,0,0,0,0,0,0,0,0,0,0,0,0,0,0,0,0,0,0,0,0,0,0,0,0,0,0,0,0,0,0,0,0,0,0,0,0,0,0,0,0,0,0,0,\
0,0,0,0,0,0,0,0,0,0,0,0,0,0,0,0,0,0,0,0,0,0,0],\"at\":0,\"do\":\"start\",\"flow\":\"g\",\"req\":\"q2\",\"text\":1}
{\"args\":[0,0,0,0,0,0,0,0,0,0,0,0,0,0,0,0,0,0,0,0,0,0,0,0,0,0,0,0,0,0,0,0,0,0,0,0,0,0,0,0,0,0,0,0,0,0,0,0,0,0,0,0,0,0,\
0,0,0,0,0,0,0,0,0,0,0,0,0,0,0,0,0,0,0,0,0,0,0,0,0,0,0,0,0,0,0,0,0,0,0,0,0,0,0,0,0,0,0,0,0,0,0,0,0,0,0,0,0,0,0,0,0,0,0,0,\
0,0,0,0,0,0,0,0,0,0,0,0,0,0,0,0,0,0,0,0,0,0,0,0,0,0,0,0,0,0,0,0,0,0,0,0,0,0,0,0,0,0,0,0,0,0,0,0,0,0,0,0,0,0,0,0,0,0,0,0,\
0,0,0,0,0,0,0,0,0,0,0,0,0,0,0,0,0,0,0,0,0,0,0,0,0,0,0,0,0,0,0,0,0,0,0,0,0,0,0,0,0,0,0,0,0,0,0,0,0,0,0,0,0,0,0,0,0,0,0,0,\
0,0,0,0,0,0,0,0,0,0,0,0,0,0,0,0,0,0,0,0,0,0,0],\"at\":0,\"do\":\"start\",\"flow\":\"g\",\"req\":\"q2\",\"text\":2}
{\"args\":[7],\"at\":0,\"do\":\"start\",\"flow\":\"f\",\"req\":\"q2\",\"text\":1}
{\"do\":\"history\",\"run\":1}
",
];
