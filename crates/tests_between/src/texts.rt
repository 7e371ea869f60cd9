// Messages of one client, and what a server writes that draws its ids from 0 on.

pub(crate) const ADD: &str =
    "POST /v1/client/add-version/00000000-0000-0000-0000-000000000000 HTTP/1.1\r\n\
    X-Client-Id: 1a2b3c4d-0001-4002-8003-00000000000f\r\n\
    Content-Type: application/vnd.taskchampion.history-segment\r\n\
    Content-Length: 17\r\n\r\n{\"operations\":[]}";

pub(crate) const ADD_AFTER_0: &str =
    "POST /v1/client/add-version/00000000-0000-4000-8000-000000000000 HTTP/1.1\r\n\
    X-Client-Id: 1a2b3c4d-0001-4002-8003-00000000000f\r\n\
    Content-Type: application/vnd.taskchampion.history-segment\r\n\
    Content-Length: 17\r\n\r\n{\"operations\":[]}";

pub(crate) const CHILD_OF_0: &str =
    "GET /v1/client/get-child-version/00000000-0000-4000-8000-000000000000 HTTP/1.1\r\n\
    X-Client-Id: 1a2b3c4d-0001-4002-8003-00000000000f\r\n\r\n";

pub(crate) const ADDED_0: &str = "HTTP/1.1 200 OK\r\nContent-Length: 0\r\n\
    X-Version-Id: 00000000-0000-4000-8000-000000000000\r\nConnection: close\r\n\r\n";

pub(crate) const UP_TO_DATE: &str =
    "HTTP/1.1 404 Not Found\r\nContent-Length: 0\r\nConnection: close\r\n\r\n";

pub(crate) const BAD: &str =
    "HTTP/1.1 400 Bad Request\r\nContent-Length: 0\r\nConnection: close\r\n\r\n";
