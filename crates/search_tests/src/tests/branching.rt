//! Ten books that make the search branch, each with its least cost, which a program that is no part of this one found by
//! trying who flies what.
//!
//! Of the first nine every Lagrangian bound stays below the least cost, since aircraft are short of the minutes and landings
//! that they may still fly. The last has no legal plan.

/// The texts of a timetable, a fleet and rules, and the least cost of their book, if a plan is legal.
pub type Texts = ([&'static str; 3], Option<u64>);

/// The ten books.
pub fn branching_books() -> &'static [Texts] {
    BRANCHING
}

const BRANCHING: &[Texts] = &[
    (
        [
            "id,kind,from,to,start,end,types,tags,tail,resets\n\
F0,flight,ARN,ARN,2025-03-03T06:28,2025-03-03T08:00,,,,\n\
F1,flight,ARN,ARN,2025-03-03T08:01,2025-03-03T09:16,P R,,,\n\
F2,flight,ARN,ARN,2025-03-03T09:25,2025-03-03T10:19,,,,\n\
F3,flight,ARN,ARN,2025-03-03T10:40,2025-03-03T12:27,,,,\n\
F4,flight,ARN,ARN,2025-03-03T12:36,2025-03-03T13:21,,,,\n\
F5,flight,ARN,ARN,2025-03-03T13:47,2025-03-03T14:25,Q,,,\n",
            "tail,type,at,ready,fixed,tags,avoid,carry\n\
A0,Q,ARN,2025-03-03T05:00,17,,,\n\
A1,R,ARN,2025-03-03T05:00,40,,,\n\
A2,Q,ARN,2025-03-03T05:00,0,,,\n\
A3,R,ARN,2025-03-03T05:00,17,,,fh=24\n",
            "[[type]]\nname = \"P\"\nrate = 2\nturn = 0\n\
[[type]]\nname = \"Q\"\nrate = 5\nturn = 0\n\
[[type]]\nname = \"R\"\nrate = 2\nturn = 0\n\
[[airport]]\nname = \"ARN\"\noffset = 60\nturn = 0\n\
[[counter]]\nname = \"fh\"\nkind = \"minutes\"\nlimit = 145\nbases = []\nstop = 1\n",
        ],
        Some(1461),
    ),
    (
        [
            "id,kind,from,to,start,end,types,tags,tail,resets\n\
F0,flight,ARN,ARN,2025-03-03T06:28,2025-03-03T07:54,P,,,\n\
F1,flight,ARN,ARN,2025-03-03T08:18,2025-03-03T08:46,,,,\n\
F2,flight,ARN,ARN,2025-03-03T08:54,2025-03-03T10:11,,,,\n\
F3,flight,ARN,ARN,2025-03-03T10:49,2025-03-03T12:35,,,,\n\
F4,flight,ARN,ARN,2025-03-03T12:40,2025-03-03T14:25,,,,\n\
F5,flight,ARN,ARN,2025-03-03T14:53,2025-03-03T16:24,,,,\n\
F6,flight,ARN,ARN,2025-03-03T16:50,2025-03-03T18:25,,,,\n",
            "tail,type,at,ready,fixed,tags,avoid,carry\n\
A0,Q,ARN,2025-03-03T05:00,3,,,fh=49\n\
A1,Q,ARN,2025-03-03T05:00,3,,,\n\
A2,P,ARN,2025-03-03T05:00,17,,,\n",
            "[[type]]\nname = \"P\"\nrate = 5\nturn = 0\n\
[[type]]\nname = \"Q\"\nrate = 1\nturn = 0\n\
[[type]]\nname = \"R\"\nrate = 2\nturn = 0\n\
[[airport]]\nname = \"ARN\"\noffset = 60\nturn = 0\n\
[[counter]]\nname = \"fh\"\nkind = \"minutes\"\nlimit = 222\nbases = []\nstop = 1\n\
[[counter]]\nname = \"ldg\"\nkind = \"landings\"\nlimit = 3\nbases = []\nstop = 1\n",
        ],
        Some(1471),
    ),
    (
        [
            "id,kind,from,to,start,end,types,tags,tail,resets\n\
F0,flight,ARN,ARN,2025-03-03T06:19,2025-03-03T06:41,,,,\n\
F1,flight,ARN,ARN,2025-03-03T07:01,2025-03-03T07:48,,,,\n\
F2,flight,ARN,ARN,2025-03-03T07:49,2025-03-03T09:19,,,,\n\
F3,flight,ARN,ARN,2025-03-03T08:28,2025-03-03T09:33,,,,\n\
F4,flight,ARN,ARN,2025-03-03T09:47,2025-03-03T10:08,,,,\n\
F5,flight,ARN,ARN,2025-03-03T10:24,2025-03-03T11:31,,,,\n",
            "tail,type,at,ready,fixed,tags,avoid,carry\n\
A0,P,ARN,2025-03-03T05:00,40,,,\n\
A1,Q,ARN,2025-03-03T05:00,40,,,fh=22\n\
A2,Q,ARN,2025-03-03T05:00,3,,,fh=24\n\
A3,Q,ARN,2025-03-03T05:00,17,,,fh=48\n",
            "[[type]]\nname = \"P\"\nrate = 2\nturn = 0\n\
[[type]]\nname = \"Q\"\nrate = 2\nturn = 0\n\
[[type]]\nname = \"R\"\nrate = 5\nturn = 0\n\
[[airport]]\nname = \"ARN\"\noffset = 60\nturn = 0\n\
[[counter]]\nname = \"fh\"\nkind = \"minutes\"\nlimit = 112\nbases = []\nstop = 1\n",
        ],
        Some(767),
    ),
    (
        [
            "id,kind,from,to,start,end,types,tags,tail,resets\n\
F0,flight,ARN,ARN,2025-03-03T06:25,2025-03-03T07:18,,,,\n\
F1,flight,ARN,ARN,2025-03-03T07:35,2025-03-03T08:06,P,,,\n\
F2,flight,ARN,ARN,2025-03-03T08:44,2025-03-03T10:15,,,,\n\
F3,flight,ARN,ARN,2025-03-03T10:20,2025-03-03T11:35,P,,,\n\
F4,flight,ARN,ARN,2025-03-03T11:22,2025-03-03T13:05,,,,\n\
F5,flight,ARN,ARN,2025-03-03T13:06,2025-03-03T14:04,P R,,,\n\
F6,flight,ARN,ARN,2025-03-03T14:04,2025-03-03T15:14,P,,,\n",
            "tail,type,at,ready,fixed,tags,avoid,carry\n\
A0,R,ARN,2025-03-03T05:00,17,,,fh=31\n\
A1,P,ARN,2025-03-03T05:00,17,,,fh=49\n\
A2,P,ARN,2025-03-03T05:00,40,,,\n",
            "[[type]]\nname = \"P\"\nrate = 2\nturn = 0\n\
[[type]]\nname = \"Q\"\nrate = 1\nturn = 0\n\
[[type]]\nname = \"R\"\nrate = 3\nturn = 0\n\
[[airport]]\nname = \"ARN\"\noffset = 60\nturn = 0\n\
[[counter]]\nname = \"fh\"\nkind = \"minutes\"\nlimit = 202\nbases = []\nstop = 1\n\
[[counter]]\nname = \"ldg\"\nkind = \"landings\"\nlimit = 4\nbases = []\nstop = 1\n",
        ],
        Some(1294),
    ),
    (
        [
            "id,kind,from,to,start,end,types,tags,tail,resets\n\
F0,flight,ARN,ARN,2025-03-03T06:02,2025-03-03T06:26,,,,\n\
F1,flight,ARN,ARN,2025-03-03T06:51,2025-03-03T07:50,,,,\n\
F2,flight,ARN,ARN,2025-03-03T08:06,2025-03-03T09:17,,,,\n\
F3,flight,ARN,ARN,2025-03-03T09:51,2025-03-03T10:45,Q,,,\n\
F4,flight,ARN,ARN,2025-03-03T11:08,2025-03-03T11:49,,,,\n\
F5,flight,ARN,ARN,2025-03-03T11:18,2025-03-03T12:48,,,,\n\
F6,flight,ARN,ARN,2025-03-03T13:21,2025-03-03T14:53,P R,,,\n",
            "tail,type,at,ready,fixed,tags,avoid,carry\n\
A0,Q,ARN,2025-03-03T05:00,0,,,fh=31\n\
A1,Q,ARN,2025-03-03T05:00,17,,,\n\
A2,P,ARN,2025-03-03T05:00,40,,,fh=21\n\
A3,R,ARN,2025-03-03T05:00,3,,,\n",
            "[[type]]\nname = \"P\"\nrate = 5\nturn = 0\n\
[[type]]\nname = \"Q\"\nrate = 4\nturn = 0\n\
[[type]]\nname = \"R\"\nrate = 2\nturn = 0\n\
[[airport]]\nname = \"ARN\"\noffset = 60\nturn = 0\n\
[[counter]]\nname = \"fh\"\nkind = \"minutes\"\nlimit = 148\nbases = []\nstop = 1\n\
[[counter]]\nname = \"ldg\"\nkind = \"landings\"\nlimit = 3\nbases = []\nstop = 1\n",
        ],
        Some(1597),
    ),
    (
        [
            "id,kind,from,to,start,end,types,tags,tail,resets\n\
F0,flight,ARN,ARN,2025-03-03T06:20,2025-03-03T06:58,,,,\n\
F1,flight,ARN,ARN,2025-03-03T07:05,2025-03-03T08:50,P,,,\n\
F2,flight,ARN,ARN,2025-03-03T08:55,2025-03-03T10:40,P,,,\n\
F3,flight,ARN,ARN,2025-03-03T11:07,2025-03-03T12:33,,,,\n\
F4,flight,ARN,ARN,2025-03-03T12:44,2025-03-03T13:54,,,,\n\
F5,flight,ARN,ARN,2025-03-03T13:48,2025-03-03T14:39,P,,,\n\
F6,flight,ARN,ARN,2025-03-03T14:47,2025-03-03T15:38,,,,\n\
F7,flight,ARN,ARN,2025-03-03T15:44,2025-03-03T17:12,P R,,,\n",
            "tail,type,at,ready,fixed,tags,avoid,carry\n\
A0,R,ARN,2025-03-03T05:00,17,,,fh=22\n\
A1,P,ARN,2025-03-03T05:00,3,,,fh=32\n\
A2,P,ARN,2025-03-03T05:00,3,,,\n",
            "[[type]]\nname = \"P\"\nrate = 3\nturn = 0\n\
[[type]]\nname = \"Q\"\nrate = 4\nturn = 0\n\
[[type]]\nname = \"R\"\nrate = 5\nturn = 0\n\
[[airport]]\nname = \"ARN\"\noffset = 60\nturn = 0\n\
[[counter]]\nname = \"fh\"\nkind = \"minutes\"\nlimit = 242\nbases = []\nstop = 1\n\
[[counter]]\nname = \"ldg\"\nkind = \"landings\"\nlimit = 4\nbases = []\nstop = 1\n",
        ],
        Some(2146),
    ),
    (
        [
            "id,kind,from,to,start,end,types,tags,tail,resets\n\
F0,flight,ARN,ARN,2025-03-03T06:19,2025-03-03T07:08,P,,,\n\
F1,flight,ARN,ARN,2025-03-03T07:28,2025-03-03T09:06,P R,,,\n\
F2,flight,ARN,ARN,2025-03-03T09:01,2025-03-03T10:21,,,,\n\
F3,flight,ARN,ARN,2025-03-03T10:23,2025-03-03T11:25,,,,\n\
F4,flight,ARN,ARN,2025-03-03T12:03,2025-03-03T13:34,,,,\n\
F5,flight,ARN,ARN,2025-03-03T13:33,2025-03-03T15:18,,,,\n\
F6,flight,ARN,ARN,2025-03-03T15:30,2025-03-03T15:58,,,,\n",
            "tail,type,at,ready,fixed,tags,avoid,carry\n\
A0,P,ARN,2025-03-03T05:00,0,,,\n\
A1,P,ARN,2025-03-03T05:00,40,,,\n\
A2,R,ARN,2025-03-03T05:00,0,,,\n",
            "[[type]]\nname = \"P\"\nrate = 5\nturn = 0\n\
[[type]]\nname = \"Q\"\nrate = 5\nturn = 0\n\
[[type]]\nname = \"R\"\nrate = 1\nturn = 0\n\
[[airport]]\nname = \"ARN\"\noffset = 60\nturn = 0\n\
[[counter]]\nname = \"fh\"\nkind = \"minutes\"\nlimit = 203\nbases = []\nstop = 1\n",
        ],
        Some(1833),
    ),
    (
        [
            "id,kind,from,to,start,end,types,tags,tail,resets\n\
F0,flight,ARN,ARN,2025-03-03T06:31,2025-03-03T07:39,,,,\n\
F1,flight,ARN,ARN,2025-03-03T06:56,2025-03-03T08:29,P R,,,\n\
F2,flight,ARN,ARN,2025-03-03T08:37,2025-03-03T09:16,,,,\n\
F3,flight,ARN,ARN,2025-03-03T09:29,2025-03-03T10:08,,,,\n\
F4,flight,ARN,ARN,2025-03-03T10:43,2025-03-03T11:09,,,,\n\
F5,flight,ARN,ARN,2025-03-03T11:44,2025-03-03T13:11,,,,\n\
F6,flight,ARN,ARN,2025-03-03T13:27,2025-03-03T14:04,Q,,,\n\
F7,flight,ARN,ARN,2025-03-03T14:29,2025-03-03T15:34,,,,\n",
            "tail,type,at,ready,fixed,tags,avoid,carry\n\
A0,Q,ARN,2025-03-03T05:00,3,,,fh=41\n\
A1,P,ARN,2025-03-03T05:00,3,,,fh=34\n\
A2,P,ARN,2025-03-03T05:00,3,,,\n\
A3,Q,ARN,2025-03-03T05:00,40,,,\n",
            "[[type]]\nname = \"P\"\nrate = 2\nturn = 0\n\
[[type]]\nname = \"Q\"\nrate = 3\nturn = 0\n\
[[type]]\nname = \"R\"\nrate = 5\nturn = 0\n\
[[airport]]\nname = \"ARN\"\noffset = 60\nturn = 0\n\
[[counter]]\nname = \"fh\"\nkind = \"minutes\"\nlimit = 150\nbases = []\nstop = 1\n\
[[counter]]\nname = \"ldg\"\nkind = \"landings\"\nlimit = 3\nbases = []\nstop = 1\n",
        ],
        Some(1215),
    ),
    (
        [
            "id,kind,from,to,start,end,types,tags,tail,resets\n\
F0,flight,ARN,ARN,2025-03-03T06:10,2025-03-03T06:32,P R,,,\n\
F1,flight,ARN,ARN,2025-03-03T06:52,2025-03-03T08:11,,,,\n\
F2,flight,ARN,ARN,2025-03-03T08:42,2025-03-03T09:15,,,,\n\
F3,flight,ARN,ARN,2025-03-03T08:36,2025-03-03T08:57,,,,\n\
F4,flight,ARN,ARN,2025-03-03T09:20,2025-03-03T10:46,Q,,,\n\
F5,flight,ARN,ARN,2025-03-03T10:58,2025-03-03T12:15,,,,\n\
F6,flight,ARN,ARN,2025-03-03T12:37,2025-03-03T13:29,P R,,,\n\
F7,flight,ARN,ARN,2025-03-03T14:00,2025-03-03T14:40,P R,,,\n",
            "tail,type,at,ready,fixed,tags,avoid,carry\n\
A0,P,ARN,2025-03-03T05:00,40,,,fh=25\n\
A1,P,ARN,2025-03-03T05:00,17,,,\n\
A2,Q,ARN,2025-03-03T05:00,17,,,\n\
A3,R,ARN,2025-03-03T05:00,17,,,\n",
            "[[type]]\nname = \"P\"\nrate = 4\nturn = 0\n\
[[type]]\nname = \"Q\"\nrate = 3\nturn = 0\n\
[[type]]\nname = \"R\"\nrate = 4\nturn = 0\n\
[[airport]]\nname = \"ARN\"\noffset = 60\nturn = 0\n\
[[counter]]\nname = \"fh\"\nkind = \"minutes\"\nlimit = 142\nbases = []\nstop = 1\n\
[[counter]]\nname = \"ldg\"\nkind = \"landings\"\nlimit = 3\nbases = []\nstop = 1\n",
        ],
        Some(1680),
    ),
    (
        [
            "id,kind,from,to,start,end,types,tags,tail,resets\n\
F00,flight,OSL,ARN,2025-03-03T17:38,2025-03-03T19:02,,,A00,\n\
F01,flight,ARN,OSL,2025-03-03T20:08,2025-03-03T21:49,P Q,,,\n\
F02,flight,OSL,ARN,2025-03-03T06:47,2025-03-03T07:42,,,,\n\
F03,flight,CPH,OSL,2025-03-03T06:58,2025-03-03T08:22,,y,A00,\n\
F04,flight,ARN,OSL,2025-03-03T08:41,2025-03-03T09:58,Q,,,\n\
F05,flight,OSL,ARN,2025-03-03T11:04,2025-03-03T12:02,,x,,\n\
F06,flight,ARN,ARN,2025-03-03T13:01,2025-03-03T13:31,,x,,\n\
F07,flight,ARN,OSL,2025-03-03T13:59,2025-03-03T15:37,P,,,\n",
            "tail,type,at,ready,fixed,tags,avoid,carry\n\
A00,P,CPH,2025-03-03T05:30,0,x y,,\n\
A01,Q,CPH,2025-03-03T06:40,40,x,,\n\
A02,Q,OSL,2025-03-03T06:52,0,x y,,\n\
A03,Q,OSL,2025-03-03T06:04,40,x y,,\n",
            "[[type]]\nname = \"P\"\nrate = 7\nturn = 15\n\
[[type]]\nname = \"Q\"\nrate = 2\nturn = 0\n\
[[airport]]\nname = \"ARN\"\noffset = 60\nturn = 0\n\
[[airport]]\nname = \"OSL\"\noffset = -120\nturn = 20\n\
[[airport]]\nname = \"CPH\"\noffset = -120\nturn = 30\n\
[[counter]]\nname = \"fh\"\nkind = \"minutes\"\nlimit = 260\nbases = [\"OSL\", \"CPH\"]\nstop = 30\n\
[[counter]]\nname = \"ldg\"\nkind = \"landings\"\nlimit = 4\nbases = [\"ARN\"]\nstop = 200\n\
[[counter]]\nname = \"chk\"\nkind = \"days\"\nlimit = 9\nbases = [\"OSL\", \"CPH\"]\nstop = 200\n\
[[band]]\nupto = 45\ncost = 0\n\
[[band]]\nupto = 300\ncost = 0\n",
        ],
        None,
    ),
];
