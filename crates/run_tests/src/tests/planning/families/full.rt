//! Everything at once: also curfews, tags, avoided airports, preassigned checks and six counters.

pub const TIMETABLE: &str = "id,kind,from,to,start,end,types,tags,tail,resets
F0000,flight,H00,H00-07,2025-03-03T05:08,2025-03-03T06:21,,,,
F0001,flight,H00,H00-04,2025-03-03T06:03,2025-03-03T07:18,T1 T3 T5,wifi,,
F0002,flight,H00,H00-06,2025-03-03T06:06,2025-03-03T07:54,,,,
F0003,flight,H00,H00-02,2025-03-03T06:07,2025-03-03T06:48,T1 T2 T3 T4,etops,,
F0004,flight,H00,H00-03,2025-03-03T06:07,2025-03-03T08:14,,,,
F0005,flight,H00,H00-05,2025-03-03T06:24,2025-03-03T08:53,T5,,,
F0006,flight,H00-07,H00,2025-03-03T07:29,2025-03-03T08:42,T1 T4 T5,,,
F0007,flight,H00-02,H00,2025-03-03T07:49,2025-03-03T08:30,T1 T2 T4,,,
F0008,flight,H00-04,H00,2025-03-03T08:07,2025-03-03T09:22,T0 T1 T3 T5,,,
F0009,flight,H00-06,H00,2025-03-03T08:51,2025-03-03T10:39,,,,
F0010,flight,H00-03,H00,2025-03-03T09:04,2025-03-03T11:11,T1 T2 T4 T5,,,
F0011,flight,H00,H00-04,2025-03-03T09:17,2025-03-03T10:32,T2 T3 T4 T5,,,
F0012,flight,H00-05,H00,2025-03-03T09:22,2025-03-03T11:51,,,,
F0013,flight,H00,H00-07,2025-03-03T09:46,2025-03-03T10:59,T0 T1,,,
F0014,flight,H00,H00-07,2025-03-03T10:10,2025-03-03T11:23,,,,
F0015,flight,H00-07,H00,2025-03-03T11:36,2025-03-03T12:49,,,,
F0016,flight,H00-04,H00,2025-03-03T11:49,2025-03-03T13:04,,,,
F0017,flight,H00,H00-04,2025-03-03T11:56,2025-03-03T13:11,T1 T3 T5,,,
F0018,flight,H00,H00-03,2025-03-03T12:07,2025-03-03T14:14,T1 T4 T5,,,
F0019,flight,H00-07,H00,2025-03-03T12:25,2025-03-03T13:38,T0 T3 T5,,,
F0020,flight,H00,H00-02,2025-03-03T12:42,2025-03-03T13:23,,,,
F0021,flight,H00,H00-05,2025-03-03T13:36,2025-03-03T16:05,T0 T1 T3,,,
F0022,flight,H00,H00-04,2025-03-03T14:01,2025-03-03T15:16,T1 T2 T4,,,
F0023,flight,H00-02,H00,2025-03-03T14:08,2025-03-03T14:49,T1 T5,,,
F0024,flight,H00-04,H00,2025-03-03T14:13,2025-03-03T15:28,T0 T1 T4 T5,,,
F0025,flight,H00,H00-06,2025-03-03T14:22,2025-03-03T16:10,,,,
F0026,flight,H00-03,H00,2025-03-03T15:10,2025-03-03T17:17,,,,
F0027,flight,H00,H00-03,2025-03-03T15:54,2025-03-03T18:01,,cargo,,
F0028,flight,H00,H00-03,2025-03-03T16:07,2025-03-03T18:14,,,,
F0029,flight,H00-04,H00,2025-03-03T16:21,2025-03-03T17:36,T1 T3 T4,,,
F0030,flight,H00-05,H00,2025-03-03T16:37,2025-03-03T19:06,,,,
F0031,flight,H00-06,H00,2025-03-03T17:08,2025-03-03T18:56,,,,
F0032,flight,H00,H00-01,2025-03-03T18:33,2025-03-03T19:40,,,,
F0033,flight,H00,H00-01,2025-03-03T18:41,2025-03-03T19:48,,,,
F0034,flight,H00-03,H00,2025-03-03T18:52,2025-03-03T20:59,T2 T3 T4 T5,,,
F0035,flight,H00-03,H00,2025-03-03T18:52,2025-03-03T20:59,,,,
F0036,flight,H00,H00-06,2025-03-03T19:57,2025-03-03T21:45,T0 T1 T2 T4 T5,,,
F0037,flight,H00,H00-02,2025-03-03T20:10,2025-03-03T20:51,,cargo,,
F0038,flight,H00-01,H00,2025-03-03T20:42,2025-03-03T21:49,T2 T4 T5,short,,
F0039,flight,H00-01,H00,2025-03-03T20:52,2025-03-03T21:59,,,,
G0040,ground,H00,H00,2025-03-03T22:03,2025-03-04T01:33,,,A004,check
F0041,flight,H00-06,H00,2025-03-04T05:48,2025-03-04T07:36,,,,
F0042,flight,H00,H00-02,2025-03-04T05:51,2025-03-04T06:32,,,,
F0043,flight,H00,H00-04,2025-03-04T05:59,2025-03-04T07:14,,,,
F0044,flight,H00,H00-02,2025-03-04T06:03,2025-03-04T06:44,T0 T1 T2 T4,,,
F0045,flight,H00,H00-06,2025-03-04T06:37,2025-03-04T08:25,,,,
F0046,flight,H00-02,H00,2025-03-04T06:42,2025-03-04T07:23,T0 T1 T2,,,
F0047,flight,H00-02,H00,2025-03-04T07:20,2025-03-04T08:01,T0 T3 T5,,,
F0048,flight,H00-02,H00,2025-03-04T07:36,2025-03-04T08:17,,,,
G0049,ground,H00,H00,2025-03-04T07:48,2025-03-04T11:25,,,,check
G0050,ground,H00,H00,2025-03-04T08:08,2025-03-04T11:15,,,,check
F0051,flight,H00-04,H00,2025-03-04T08:13,2025-03-04T09:28,T2 T3 T4 T5,,,
G0052,ground,H00,H00,2025-03-04T08:49,2025-03-04T12:46,,,A002,check
F0053,flight,H00-06,H00,2025-03-04T09:03,2025-03-04T10:51,,,,
F0054,flight,H00,H00-03,2025-03-04T09:17,2025-03-04T11:24,T1 T2 T4,short,,
F0055,flight,H00,H00-05,2025-03-04T10:33,2025-03-04T13:02,,,,
G0056,ground,H00,H00,2025-03-04T10:55,2025-03-04T14:04,,,A003,check
F0057,flight,H00,H00-05,2025-03-04T11:46,2025-03-04T14:15,,,,
F0058,flight,H00,H00-04,2025-03-04T12:01,2025-03-04T13:16,T0 T1 T2 T3 T5,,,
F0059,flight,H00-03,H00,2025-03-04T12:11,2025-03-04T14:18,T0 T1 T2 T3 T4,etops,,
F0060,flight,H00,H00-03,2025-03-04T13:24,2025-03-04T15:31,T0 T1 T4 T5,wifi,,
F0061,flight,H00-04,H00,2025-03-04T13:53,2025-03-04T15:08,T1 T2 T3,cargo,,
F0062,flight,H00-05,H00,2025-03-04T14:21,2025-03-04T16:50,T0 T2 T4,,,
F0063,flight,H00,H00-05,2025-03-04T14:40,2025-03-04T17:09,T0 T1 T2 T4 T5,,,
F0064,flight,H00-05,H00,2025-03-04T15:11,2025-03-04T17:40,T0 T3 T5,,,
F0065,flight,H00,H00-01,2025-03-04T15:30,2025-03-04T16:37,T1 T3 T4,,,
F0066,flight,H00-03,H00,2025-03-04T15:58,2025-03-04T18:05,T0 T2 T3 T4 T5,cargo,,
F0067,flight,H00,H00-02,2025-03-04T16:24,2025-03-04T17:05,,,,
G0068,ground,H00,H00,2025-03-04T17:04,2025-03-04T22:26,,,A000,check
F0069,flight,H00-01,H00,2025-03-04T17:31,2025-03-04T18:38,,etops,,
F0070,flight,H00-05,H00,2025-03-04T17:36,2025-03-04T20:05,,,,
F0071,flight,H00-02,H00,2025-03-04T17:43,2025-03-04T18:24,T0 T1 T2 T5,,,
F0072,flight,H00,H00-03,2025-03-04T18:33,2025-03-04T20:40,,,,
F0073,flight,H00,H00-01,2025-03-04T19:19,2025-03-04T20:26,T0 T1 T4 T5,,,
F0074,flight,H00,H00-01,2025-03-04T19:22,2025-03-04T20:29,,,,
F0075,flight,H00,H00-02,2025-03-04T19:49,2025-03-04T20:30,,,,
F0076,flight,H00-03,H00,2025-03-04T21:08,2025-03-04T23:15,,,,
F0077,flight,H00,H00-01,2025-03-04T21:11,2025-03-04T22:18,,,,
F0078,flight,H00-01,H00,2025-03-04T21:22,2025-03-04T22:29,T2 T3 T4 T5,wifi,,
F0079,flight,H00-01,H00,2025-03-04T21:25,2025-03-04T22:32,,,,
F0080,flight,H00,H00-03,2025-03-05T05:45,2025-03-05T07:52,,,,
F0081,flight,H00,H00-06,2025-03-05T05:57,2025-03-05T07:45,T0 T1 T2 T3 T4 T5,,,
F0082,flight,H00,H00-03,2025-03-05T06:44,2025-03-05T08:51,,cargo,,
F0083,flight,H00-01,H00,2025-03-05T06:45,2025-03-05T07:52,T1 T5,,,
F0084,flight,H00,H00-07,2025-03-05T06:51,2025-03-05T08:04,,,,
F0085,flight,H00-07,H00,2025-03-05T08:54,2025-03-05T10:07,T0 T2 T3 T5,,,
F0086,flight,H00-03,H00,2025-03-05T09:06,2025-03-05T11:13,T0 T1 T2 T4,,,
F0087,flight,H00,H00-02,2025-03-05T09:09,2025-03-05T09:50,,,,
F0088,flight,H00-03,H00,2025-03-05T09:43,2025-03-05T11:50,T4 T5,,,
F0089,flight,H00-02,H00,2025-03-05T10:34,2025-03-05T11:15,T2 T5,,,
F0090,flight,H00,H00-07,2025-03-05T11:15,2025-03-05T12:28,T4 T5,,,
F0091,flight,H00,H00-01,2025-03-05T12:03,2025-03-05T13:10,T1 T2 T4,,,
F0092,flight,H00,H00-06,2025-03-05T12:17,2025-03-05T14:05,,wifi,,
F0093,flight,H00,H00-00,2025-03-05T12:59,2025-03-05T15:19,T0 T1 T2 T3 T5,,,
F0094,flight,H00-01,H00,2025-03-05T14:30,2025-03-05T15:37,T0 T2 T4 T5,etops,,
F0095,flight,H00,H00-04,2025-03-05T16:38,2025-03-05T17:53,,,,
F0096,flight,H00-04,H00,2025-03-05T18:43,2025-03-05T19:58,,,,
";

pub const FLEET: &str = "tail,type,at,ready,fixed,tags,avoid,carry
A000,T4,H00,2025-03-03T04:05,1401,etops wifi cargo short,H00-07,hours=606 landings=8 check=641 weekly=43 wash=472
A001,T1,H00,2025-03-03T04:43,1211,cargo short,,hours=234 check=1203 weekly=506 wash=1207
A002,T5,H00,2025-03-03T04:25,1125,etops wifi cargo,,hours=627 landings=8 check=1162 weekly=346 wash=918
A003,T5,H00,2025-03-03T04:20,722,etops wifi cargo short,,hours=633 landings=8 check=1017 weekly=189 wash=812
A004,T4,H00,2025-03-03T05:28,1792,etops short,,hours=237 check=1861 weekly=608 wash=1859
A005,T5,H00,2025-03-03T05:27,1358,wifi cargo,,landings=2 check=1245 wash=831
";

pub const RULES: &str = "[[type]]\nname = \"T0\"\nrate = 25\nturn = 25\n\
[[type]]\nname = \"T1\"\nrate = 24\nturn = 30\n\
[[type]]\nname = \"T2\"\nrate = 56\nturn = 35\n\
[[type]]\nname = \"T3\"\nrate = 6\nturn = 40\n\
[[type]]\nname = \"T4\"\nrate = 30\nturn = 45\n\
[[type]]\nname = \"T5\"\nrate = 10\nturn = 25\n\
[[airport]]\nname = \"H00\"\noffset = -60\nturn = 39\n\
[[airport]]\nname = \"H00-00\"\noffset = -120\nturn = 20\n\
[[airport]]\nname = \"H00-01\"\noffset = -60\nturn = 25\n\
[[airport]]\nname = \"H00-02\"\noffset = -60\nturn = 23\n\
[[airport]]\nname = \"H00-03\"\noffset = -60\nturn = 21\n\
[[airport]]\nname = \"H00-04\"\noffset = -60\nturn = 31\n\
[[airport]]\nname = \"H00-05\"\noffset = -60\nturn = 26\n\
[[airport]]\nname = \"H00-06\"\noffset = 60\nturn = 21\n\
[[airport]]\nname = \"H00-07\"\noffset = 60\nturn = 30\n\
[[curfew]]\nairport = \"H00-01\"\nfrom = \"23:00\"\nto = \"05:30\"\ntypes = [\"T1\"]\nstart = true\nlanding = true\n\
[[curfew]]\nairport = \"H00-02\"\nfrom = \"23:00\"\nto = \"05:30\"\ntypes = []\nstart = true\nlanding = true\n\
[[curfew]]\nairport = \"H00-03\"\nfrom = \"23:00\"\nto = \"05:30\"\ntypes = []\nstart = true\nlanding = true\n\
[[curfew]]\nairport = \"H00-07\"\nfrom = \"23:00\"\nto = \"05:30\"\ntypes = []\nstart = true\nlanding = true\n\
[[counter]]\nname = \"hours\"\nkind = \"minutes\"\nlimit = 1280\nbases = [\"H00\"]\nstop = 420\n\
[[counter]]\nname = \"landings\"\nkind = \"landings\"\nlimit = 15\nbases = [\"H00\"]\nstop = 420\n\
[[counter]]\nname = \"check\"\nkind = \"days\"\nlimit = 2\nbases = []\nstop = 100000\n\
[[counter]]\nname = \"weekly\"\nkind = \"minutes\"\nlimit = 1674\nbases = [\"H00\"]\nstop = 1200\n\
[[counter]]\nname = \"gear\"\nkind = \"landings\"\nlimit = 16\nbases = [\"H00\"]\nstop = 1200\n\
[[counter]]\nname = \"wash\"\nkind = \"days\"\nlimit = 3\nbases = [\"H00\"]\nstop = 600\n\
[[band]]\nupto = 40\ncost = 60\n\
[[band]]\nupto = 75\ncost = 0\n\
[[band]]\nupto = 150\ncost = 20\n\
[[band]]\nupto = 300\ncost = 60\n\
[[band]]\nupto = 720\ncost = 100\n\
[[band]]\nupto = 1800\ncost = 40\n";
