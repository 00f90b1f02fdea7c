// The keys of lines, in the order in which the lines print them. A key's number is its place here.
pub static TABLE: [&[u8]; crate::KEYS] = [
    // Line 1 of an hour block.
    b"hour=", b" en=", b" reg=", b" r1=", b" r2=", b" r3=", b" breg=", b" b1=", b" b2=", b" b3=",
    // The two curve lines, and the pairs of both.
    b"da=", b" n=", b"rt=", b" n=", b" to=", b" at=",
    // Time and energy of an interval line.
    b"s=", b" en=", b" ae=", b" co=", b" eop=", b" pen=", b" lim=", b" uol=",
    // Its reserves.
    b" r1=", b" r2=", b" r3=", b" p1=", b" p2=", b" p3=",
    // Its regulation and movement.
    b" reg=", b" preg=", b" breg=", b" mv=", b" pmv=", b" bmv=",
    // An import's first line.
    b"import=", b" cts=", b" hours=",
    // Line 1 of its blocks.
    b"hour=", b" den=", b" dec=",
    // An interval line of an import's block.
    b"s=", b" cut=", b" prof=", b" rten=", b" lbmp=", b" bid=", b" def=",
    // A day's header, a key to a line.
    b"form=", b"hours=", b"unit=", b"rtc=", b"cat=", b"x1=", b"x2=", b"x3=", b"x4=", b"x5=",
    b"x6=",
    // Two lines of an internal controllable line's header.
    b"line=", b"mark=",
    // Line 1 of its blocks.
    b"hour=", b" dasi=", b" dasw=",
    // An interval line of its blocks.
    b"s=", b" en=", b" aei=", b" aew=", b" pin=", b" pout=",
];
