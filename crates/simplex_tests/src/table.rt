//! Programs, and how runs of them end that another program makes. Made by
//! `tools/simplex_table`, which tells what the lines are. The runs of each kind:
//!
//! - Optimal, after a pivot at the most: 2
//! - Optimal, after several pivots: 7
//! - Optimal, with a point that is too wide: 2
//! - Cut, after a pivot at the most: 2
//! - Cut, after several pivots: 4
//! - Cut, by rounding up alone: 5
//! - Infeasible, after a pivot at the most: 2
//! - Infeasible, after several pivots: 7
//! - Limit, with no pivot: 2
//! - Limit, after one or more: 5
//! - Wide, at the first tableau: 4
//! - Wide, at the first pivot: 2
//! - Wide, after pivots, by too many entries: 3
//! - Wide, after pivots, by a number: 3

/// A line for each run.
pub const RUNS: &str = "\
1. 2 16 32 31 plus 1, -1 -3 -3 0 at most -2, 2 0 -3 -2 at most 2, 0 -3 -1 1 at most -3; cells \
    1000000 pivots 100: optimal, weight 3, value 51/3, rows 0 0 16 0 0 0 0, point 0 1 0 0 over 1
2. 909925047 861425548 plus -4; cells 1000000 pivots 3 cutoff 4: optimal, weight 1, value -4/1, \
    rows 0 0, point 0 0 over 1
3. 584361682 140040410 plus 0, -1 0 at most 3, -856945538097 1 at most -4, -869417065180 \
    296076090505 at most -1021783653348; cells 1000000 pivots 1: wide, weight 1, value 0/1, rows 0 \
    0 0 0 0
4. 5 0 7 3 0 plus -3, 1 -1 -1 1 0 at most -1, -1 -1 1 1 0 at most 3; cells 32 pivots 100: wide, \
    weight 1, value -3/1, rows 0 0 0 0 0 0 0
5. 1 1 plus -2, -2 -1 at most 0, 0 3 at most -2, -1 0 at most 1; cells 1000000 pivots 100: \
    infeasible, weight 0, rows 0 1 0 0 0
6. 0 1 1 0 plus -1, 1 1 -1 -1 at most 1, -1 -1 -1 1 at most -2; cells 1000000 pivots 4: optimal, \
    weight 1, value 0/1, rows 0 1 1 0 0 0, point 2 1 1 0 over 2
7. 44 17 18 12 4 4 plus -1, 0 -935609574504 -969191703740 -3 0 0 at most -2, -664654545928 \
    374026865778 -115952504280 0 -32857834156 -143519819579 at most 3; cells 27 pivots 100: wide, \
    weight 1, value -1/1, rows 0 0 0 0 0 0 0 0
8. 1 plus -2, -1 at most -2, -3 at most -1, -1 at most -3, -3 at most -2, 1 at most 3; cells \
    1000000 pivots 100: infeasible, weight 0, rows 0 0 1 0 0 1
9. 7 plus 1, -3 at most -1, 1 at most -4, 3 at most 3, 1 at most -3, -1 at most -1; cells 1000000 \
    pivots 2 cutoff 2: cut, weight 3, value 10/3, rows 7 0 0 0 0 0
10. 0 3 0 6 5 plus -4, -2 1 0 0 -3 at most -3, 0 0 -3 0 0 at most -4; cells 1000000 pivots 100 \
    cutoff 6: infeasible, weight 0, rows 0 1 0 0 3 0 0
11. 3 2 6 4 plus 3, 0 1 0 0 at most 3, 0 -1 -3 0 at most -4, -2 0 0 0 at most -1; cells 1000000 \
    pivots 100: optimal, weight 2, value 25/2, rows 0 4 3 0 0 0 0, point 1 2 2 0 over 2
12. 0 1 0 0 0 0 plus 5, 0 0 0 0 -1 0 at most -4, 1 -2305843009213693953 0 -2 -1 \
    -2305843009213693951 at most -2305843009213693945, 2305843009213693954 1 -2305843009213693952 \
    -2305843009213693946 0 -3 at most -2305843009213693950, 0 2305843009213693945 \
    2305843009213693960 0 0 2 at most -1; cells 1000000 pivots 100: wide, weight 1, value 5/1, \
    rows 0 0 0 0 0 0 0 0 0 0
13. 2 plus 2, 2 at most -4, 3 at most 2, -1 at most -3, -1 at most 3, 3 at most 0; cells 19 pivots \
    100: wide, weight 1, value 2/1, rows 0 0 0 0 0 0
14. 31 16 5 plus -1; cells 13 pivots 0: wide, weight 1, value -1/1, rows 0 0 0
15. 593016285 173879085 plus -2, 3 3 at most 1, -3 -1 at most -4, 1 -3 at most 0, -2 -2 at most \
    -4, 3 0 at most -3, 0 -3 at most 2; cells 1000000 pivots 100: infeasible, weight 0, rows 1 1 0 \
    0 0 0 0 0
16. 1 2 2 2 plus -5, -1 -3 -3 0 at most -3, -1 0 -3 0 at most 2; cells 1000000 pivots 100: \
    optimal, weight 3, value -9/3, rows 2 0 0 0 0 0, point 0 1 0 0 over 1
17. 18 16 30 42 plus -4, 1 0 0 0 at most 0, 0 0 3 0 at most -4, 0 -2 0 3 at most -4, 0 -3 0 0 at \
    most 2, -1 -3 -1 -3 at most -2; cells 35 pivots 100: wide, weight 1, value -4/1, rows 0 0 0 0 \
    0 0 0 0 0
18. 665751591 857533178 9105334 plus -1, 0 -1 0 at most -4, -1 -3 -1 at most 1, -2 -2 -3 at most \
    -4, 0 0 -1 at most -1, 1 -2 -2 at most -4, -1 0 0 at most 0; cells 1000000 pivots 1: limit, \
    weight 1, value 3430132711/1, rows 857533178 0 0 0 0 0 0 0 0
19. 755087178 plus -1, -2 at most -1, -3 at most -2; cells 1000000 pivots 100: optimal, weight 1, \
    value 503391451/1, rows 0 251695726 0, point 2 over 3
20. 1 35 33 30 3 16 plus -4, 0 0 2 1 2 -3 at most 3, -2 -2 -1 -1 -1 2 at most -3, -2 -1 -1 -1 -1 \
    -2 at most -1, 0 0 -3 0 0 2 at most 3, -3 -3 0 1 -3 -3 at most 1, -3 1 1 0 -1 2 at most -3; \
    cells 1000000 pivots 100: optimal, weight 1, value 0/1, rows 0 3 0 0 0 0 5 0 0 0 0 0, point 1 \
    0 0 0 1 0 over 1
21. 624155310 822839080 plus 5, 1 -2 at most -4, -3 -1 at most -2, 0 -1 at most -2; cells 1000000 \
    pivots 0: limit, weight 1, value 5/1, rows 0 0 0 0 0
22. 2 1 plus 0, 3 -2 at most 2, 0 -1 at most 3, 0 -1 at most 0, -1 -2 at most -3; cells 1000000 \
    pivots 3: optimal, weight 1, value 3/1, rows 0 0 0 2 0 3, point 1 1 over 1
23. 3 0 1 0 plus -1, 0 -1 0 0 at most 0, 1 0 0 1 at most 2, 0 0 1 1 at most 1, 1 -1 1 1 at most \
    -3, -1 0 -1 0 at most 1, -1 0 -1 0 at most -3; cells 1000000 pivots 100 cutoff 0: cut, weight \
    1, value 2/1, rows 0 0 0 0 0 1 0 0 0 0
24. 3 3 3 1 2 plus 1, 0 0 0 -1 0 at most 2, 0 0 3 -1 -1 at most 3, -3 0 0 0 -1 at most -4, 0 0 -2 \
    0 1 at most -3, 0 0 0 1 1 at most -1; cells 53 pivots 100: wide, weight 2, value 19/2, rows 0 \
    0 2 3 0 0 0 0 0 0
25. 0 1 1 1 plus 1, -3 3 -3 0 at most 0, 0 0 -1 -3 at most 2, 2 -3 -1 -2 at most -2, 0 1 1 -3 at \
    most -1, -2 2 -1 -3 at most 0, -1 -1 2 3 at most -3; cells 1000000 pivots 3: limit, weight 6, \
    value 12/6, rows 1 0 3 0 0 0 0 0 0 0
26. 1 plus -1, -3 at most -516646648930, 572868349358 at most -46111912992, -271151996829 at most \
    798255338; cells 15 pivots 0: limit, weight 1, value -1/1, rows 0 0 0 0
27. 0 0 1 1 plus 0, 0 -1 -1 0 at most -3, -1 -1 -1 -1 at most 0, -1 -1 1 1 at most -4, 0 -1 0 -1 \
    at most -3, -1 -1 -1 1 at most -2; cells 1000000 pivots 3: limit, weight 1, value 2/1, rows 1 \
    0 0 0 0 0 1 0 0
28. 1 0 0 1 plus -2, 1 0 -1 0 at most -3, 0 0 0 -1 at most 2, 0 0 -1 -1 at most 0, -1 -1 1 0 at \
    most -4, -1 1 -1 0 at most 0; cells 1000000 pivots 3 cutoff -1: cut, weight 2, value 0/2, rows \
    0 0 0 1 1 0 0 0 0
29. 0 0 0 plus -1, -2 0 -2 at most -3; cells 1000000 pivots 100: optimal, weight 1, value -1/1, \
    rows 0 0 0 0, point 2 0 1 over 2
30. 7 5 1 6 2 4 plus 4, -1 1 -1 -1 2 -1 at most -3, 0 -1 -1 0 -3 -1 at most 1, 0 0 3 3 -1 -3 at \
    most -2, 2 -3 2 -2 -1 1 at most -3; cells 1000000 pivots 3: limit, weight 24, value 515/24, \
    rows 105 0 7 30 0 0 0 0 0 0
31. 17 2 30 plus 5, 2 -3 0 at most -2305843009213693943, -2305843009213693959 0 \
    -2305843009213693946 at most -2305843009213693950, -3 2 -1 at most -2; cells 1000000 pivots \
    100 cutoff 6: cut, weight 3, value 4611686018427387901/3, rows 2 0 0 0 0 0
32. 101903223 567087440 921832062 858589684 plus 3, 1 1 0 1 at most 0, 0 -1 -1 -1 at most -4, -1 0 \
    0 0 at most -2, -1 -1 -1 -1 at most 0; cells 1000000 pivots 1: limit, weight 1, value \
    2268349763/1, rows 0 567087440 0 0 0 0 0 0
33. 1 1 3 plus 0, 0 -1 0 at most 3, -1 0 -1 at most -4, -1 -1 1 at most 2, 1 0 -1 at most 3; cells \
    1000000 pivots 100 cutoff 6: cut, weight 1, value 10/1, rows 0 3 0 0 2 0 0
34. 1 0 1 2 2 2 plus -3, -2 -3 -2305843009213693960 -2305843009213693958 -2305843009213693955 0 at \
    most -2305843009213693949; cells 1000000 pivots 100 cutoff 2: wide, weight 1, value -3/1, rows \
    0 0 0 0 0 0 0
35. 5 21 1 4 plus -2, 0 0 -1 0 at most -1, -1 2 -2 3 at most -4; cells 1000000 pivots 100 cutoff \
    5: cut, weight 1, value 9/1, rows 0 5 0 0 9 0
36. 1 0 1 1 1 0 plus 0, -508419650388 0 0 0 0 0 at most -365459943718, 0 2 0 0 0 0 at most 3, 0 \
    -55644160738 -3 0 0 0 at most -1; cells 1000000 pivots 100 cutoff 2: optimal, weight \
    508419650388, value 365459943718/508419650388, rows 1 0 0 0 0 0 0 0 0, too wide at 2 by \
    7072646187136909016586
37. 0 3 2 plus -5, -2305843009213693954 -3 -1 at most -4, 0 2305843009213693960 0 at most \
    -2305843009213693951, 0 -2305843009213693957 -3 at most -2305843009213693943; cells 72 pivots \
    100 cutoff 1: infeasible, weight 0, rows 0 1 0 0 0 0
38. 0 1 0 1 0 plus 4, -1 -1 -1 -1 -1 at most -4, 0 0 -1 0 -1 at most 0; cells 38 pivots 100: wide, \
    weight 1, value 4/1, rows 0 0 0 0 0 0 0
39. 1 1 plus 0, -1 -1 at most 1, -1 -1 at most -1, -1 0 at most -1, -1 1 at most -2; cells 27 \
    pivots 100: wide, weight 1, value 1/1, rows 0 1 0 0 0 0
40. 0 1 0 plus -3, -3 0 3 at most 3, 1 3 0 at most 0, 2 -2 -3 at most -1, -1 -3 1 at most 2, 0 0 2 \
    at most -1; cells 1000000 pivots 100 cutoff 4: infeasible, weight 0, rows 0 0 0 0 1 0 0 0
41. 7 26 plus -1, 0 2 at most 0, -2 -2 at most -1, 2 -2 at most -4, -3 0 at most -3, -1 2 at most \
    -3; cells 1000000 pivots 3: infeasible, weight 0, rows 1 0 1 0 0 0 0
42. 6 4 1 2 6 3 plus 0, -3 -3 -3 0 3 -2 at most -1, -3 1 -3 0 -2 -1 at most -4, -2 0 0 1 0 -1 at \
    most 0; cells 1000000 pivots 100 cutoff 2: cut, weight 3, value 4/3, rows 0 1 0 0 0 0 0 0 0
43. 0 1 0 1 plus -2, 0 -1 0 -2 at most 2, -3 0 0 0 at most 0, -1 -2 -3 3 at most -2, 3 0 0 0 at \
    most -4, 0 0 3 -2 at most -4; cells 1000000 pivots 100 cutoff 4: infeasible, weight 0, rows 0 \
    0 0 1 0 0 0 0 0
44. 5 6 7 7 7 plus 5, -2 0 -808170968521 -2 0 at most -3; cells 1000000 pivots 100 cutoff 6: cut, \
    weight 115452995503, value 577264977518/115452995503, rows 1 0 0 0 0 0
45. 2 24 plus 2, 2 0 at most 2, 0 -1 at most 0, -3 3 at most -2, 3 0 at most -4, -2 -1 at most 3; \
    cells 70 pivots 100 cutoff 4: cut, weight 3, value 10/3, rows 0 0 2 0 0 0 0
46. 6 1 3 4 7 plus -1, 0 -3 0 0 -2 at most -2, 0 -3 0 -3 1 at most -4; cells 1000000 pivots 100 \
    cutoff 2: cut, weight 3, value 4/3, rows 0 4 0 9 0 0 0
47. 25 1 39 8 28 plus 4, 0 -3 1 1 -1 at most -1, -2 3 1 0 -2 at most -4, 0 -2 -1 0 0 at most -2, \
    -3 0 -3 -3 0 at most -1, -3 -1 -1 1 2 at most 3; cells 1000000 pivots 100: infeasible, weight \
    0, rows 0 1 1 0 0 2 0 0 0 2
48. 2 3 2 plus -2, -3 3 -1 at most 2, -1 1 -3 at most 3, -2 0 -3 at most -2, -1 -3 2 at most -1, \
    -2 0 0 at most -3; cells 1000000 pivots 3 cutoff 0: cut, weight 3, value -2/3, rows 0 0 2 0 0 \
    0 0 0
49. 2 1 0 plus -5, 0 0 -947832576894 at most -643700848040, -450574553380 0 0 at most -1; cells \
    1000000 pivots 100: optimal, weight 225287276690, value -1126436383449/225287276690, rows 0 1 \
    0 0 0, too wide at 3 by 30504945715216325542980
50. 2 2 2 1 0 2 plus 5, 0 0 0 -3 -2305843009213693944 -2305843009213693954 at most \
    -2305843009213693948; cells 1000000 pivots 4: wide, weight 1, value 5/1, rows 0 0 0 0 0 0 0
";
