//! The texts of the worked days, and of plans of them.

/// Two flights, of which one may leave in a period: the day of `two_flights(alloc, 1, 9, 9)`.
pub const TWO_FLIGHTS: &[u8] = b"day,2011-03-14T06:00,15,8
airport,ORIG,1,9
airport,DEST,9,9
sector,S,9
flight,F1,ORIG,DEST,0,2,4,5,1,2
leg,F1,ORIG,S,0
leg,F1,S,DEST,2
flight,F2,ORIG,DEST,0,2,4,5,1,2
leg,F2,ORIG,S,0
leg,F2,S,DEST,2
";

/// A flight and the flight of its aircraft back: the day of `there_and_back(alloc, 1, 2)`.
pub const THERE_AND_BACK: &[u8] = b"day,2011-03-14T06:00,15,8
airport,ORIG,1,9
airport,DEST,9,9
sector,S,9
flight,F1,ORIG,DEST,0,2,4,5,1,2
leg,F1,ORIG,S,0
leg,F1,S,DEST,2
flight,G1,DEST,ORIG,3,5,4,5,1,2
leg,G1,DEST,S,0
leg,G1,S,ORIG,2
connect,F1,G1,2
";

/// The two flights on time.
pub const ON_TIME: &[u8] = b"trip,F1,ORIG,0,S,0,DEST,2
trip,F2,ORIG,0,S,0,DEST,2
";
